// The names of calls, of their fields and of errors, also put at a place of a lent line.
ghost use Rattle.std.specs.Prelude.{◌≡◌, ◌≤◌, length};
ghost use Rattle.script.specs.Place.{Appends};
ghost use Rattle.text.specs.Names.{template, error_name};

use model::kind;
use script::place::put;

// No template is longer.
pub const TEMPLATE_BYTES: usize = 32;

// A kind's call and its fields by the manual's names, a space between them; nothing for a kind that no record has.
pub fn template(kind: u8) -> &'static [u8]
    ensures { result.now ≡ template kind }
{
    match kind {
        kind::CRE_TSK => b"cre_tsk itskpri",
        kind::DEL_TSK => b"del_tsk tskid",
        kind::STA_TSK => b"sta_tsk tskid",
        kind::EXT_TSK => b"ext_tsk",
        kind::TER_TSK => b"ter_tsk tskid",
        kind::CHG_PRI => b"chg_pri tskid tskpri",
        kind::CRE_MTX => b"cre_mtx mtxatr ceilpri",
        kind::DEL_MTX => b"del_mtx mtxid",
        kind::LOC_MTX => b"loc_mtx mtxid tmout",
        kind::UNL_MTX => b"unl_mtx mtxid",
        kind::CRE_MBF => b"cre_mbf mbfatr bufsz maxmsz",
        kind::DEL_MBF => b"del_mbf mbfid",
        kind::SND_MBF => b"snd_mbf mbfid msgsz tmout",
        kind::RCV_MBF => b"rcv_mbf mbfid tmout",
        kind::CRE_MPF => b"cre_mpf mpfatr mpfcnt blfsz",
        kind::DEL_MPF => b"del_mpf mpfid",
        kind::GET_MPF => b"get_mpf mpfid tmout",
        kind::REL_MPF => b"rel_mpf mpfid blf",
        kind::TICK => b"tick",
        _ => b"",
    }
}

pub fn put_template(line: &mut [u8], at: usize, kind: u8) -> usize
    ensures text { Appends line.old at (template kind) line.new result }
    ensures short { length (template kind) ≤ TEMPLATE_BYTES }
{
    put(line, at, template(kind))
}

// The name of an error code without its sign, a space in front; nothing for a number that is none.
pub fn error_name(error: u32) -> &'static [u8]
    ensures { result.now ≡ error_name error }
{
    match error {
        5 => b" E_SYS",
        11 => b" E_RSATR",
        17 => b" E_PAR",
        18 => b" E_ID",
        25 => b" E_CTX",
        28 => b" E_ILUSE",
        33 => b" E_NOMEM",
        34 => b" E_LIMIT",
        41 => b" E_OBJ",
        42 => b" E_NOEXS",
        50 => b" E_TMOUT",
        51 => b" E_DLT",
        _ => b"",
    }
}

pub fn put_error(line: &mut [u8], at: usize, error: u32) -> usize
    ensures { Appends line.old at (error_name error) line.new result }
{
    put(line, at, error_name(error))
}
