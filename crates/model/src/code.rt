// What calls are answered with: 0, or one of the standard's main error codes that document 01 names. specs/Code.antt has their numbers for the definitions.
ghost use Rattle.std.specs.Prelude.{◌≡◌};
ghost use Rattle.model.specs.Errors.{code_of};

pub const E_OK: i32 = 0;

#[derive(Clone, Copy)]
pub enum Error {
    Sys = -5,
    Rsatr = -11,
    Par = -17,
    Id = -18,
    Ctx = -25,
    Iluse = -28,
    Nomem = -33,
    Limit = -34,
    Obj = -41,
    Noexs = -42,
    Tmout = -50,
    Dlt = -51,
}

impl Error {
    pub fn code(self) -> i32
        ensures { result ≡ code_of self }
    {
        self as i32
    }
}

// The codes of the errors that are answers of waits, and of functions that C calls.
pub const E_SYS: i32 = Error::Sys as i32;

pub const E_PAR: i32 = Error::Par as i32;

pub const E_TMOUT: i32 = Error::Tmout as i32;

pub const E_DLT: i32 = Error::Dlt as i32;
