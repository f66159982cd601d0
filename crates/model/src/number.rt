// Numbers of tasks, mutexes, buffers and pools, one type over the kind of object: a mutex number can't stand where a task number
// belongs. Only the range checks here make one.
ghost use Rattle.std.specs.Prelude.{◌≡◌, ℕ, Bool};
ghost use Rattle.model.specs.Sizes.{tasks, mutexes, buffers, pools};
ghost use Rattle.model.specs.Code.{number, low_byte};
ghost use Rattle.model.specs.Number.{field_number, word_number, numbered_as, maybe_number, task_word};
ghost use Rattle.model.specs.Lists.{all, any, first_where, up_to};
ghost use Rattle.model.specs.Valid.{From};

use super::sizes::{BUFFERS, MUTEXES, POOLS, TASKS};
use std::marker::PhantomData;

// A kind of object, and the last number that one of the kind can have.
pub trait Object: Copy {
    ghost LAST: { ℕ };

    const LAST: u32;
}

#[derive(Clone, Copy)]
pub struct Task;

#[derive(Clone, Copy)]
pub struct Mutex;

#[derive(Clone, Copy)]
pub struct Buffer;

#[derive(Clone, Copy)]
pub struct Pool;

impl Object for Task {
    ghost LAST = { tasks };

    const LAST: u32 = TASKS;
}

impl Object for Mutex {
    ghost LAST = { mutexes };

    const LAST: u32 = MUTEXES;
}

impl Object for Buffer {
    ghost LAST = { buffers };

    const LAST: u32 = BUFFERS;
}

impl Object for Pool {
    ghost LAST = { pools };

    const LAST: u32 = POOLS;
}

// The number of an object of a kind.
#[derive(Clone, Copy)]
pub struct Number<K>(u32, PhantomData<K>);

pub type TaskNumber = Number<Task>;

pub type MutexNumber = Number<Mutex>;

pub type BufferNumber = Number<Buffer>;

pub type PoolNumber = Number<Pool>;

// A word that is a number up to the last, else 0.
fn word_number(n: u32, last: u32) -> u32
    ensures { result ≡ word_number n last }
{
    if last < n { 0 } else { n }
}

// A field as a number, 0 for one below 0: the one place where a field loses its sign.
pub fn natural(n: i32) -> u32
    ensures { result ≡ number n }
{
    if n < 0 { 0 } else { n as u32 }
}

// A field that is a number up to the last, else 0.
fn field_number(n: i32, last: u32) -> u32
    ensures { result ≡ field_number n last }
{
    word_number(natural(n), last)
}

impl<K: Object> Number<K> {
    // What a field of a call names: an object's number, or nothing.
    pub fn from_field(n: i32) -> Option<Number<K>>
        ensures { result ≡ maybe_number (field_number n K.LAST) }
    {
        Number::maybe(field_number(n, K::LAST))
    }

    // The same of a word of the state.
    pub fn from_word(n: u32) -> Option<Number<K>>
        ensures { result ≡ maybe_number (word_number n K.LAST) }
    {
        Number::maybe(word_number(n, K::LAST))
    }

    // Whether a test, which tells p of each number, holds of every number of the kind.
    pub fn every<F: Fn(Number<K>) -> bool>(test: F) -> bool
        ghost p: { ℕ → Bool }
        requires can { (n : ℕ) → From 1 K.LAST n → F.pre test (numbered_as n) }
        requires tells { (n : ℕ) (r : Bool) → From 1 K.LAST n → F.post test (numbered_as n) r → r ≡ p n }
        ensures { result ≡ all p (up_to K.LAST) }
    {
        for n in 0..K::LAST {
            if !test(Number(n + 1, PhantomData)) {
                return false;
            }
        }
        true
    }

    // Whether it holds of any.
    pub fn any<F: Fn(Number<K>) -> bool>(test: F) -> bool
        ghost p: { ℕ → Bool }
        requires can { (n : ℕ) → From 1 K.LAST n → F.pre test (numbered_as n) }
        requires tells { (n : ℕ) (r : Bool) → From 1 K.LAST n → F.post test (numbered_as n) r → r ≡ p n }
        ensures { result ≡ any p (up_to K.LAST) }
    {
        for n in 0..K::LAST {
            if test(Number(n + 1, PhantomData)) {
                return true;
            }
        }
        false
    }

    // The first number that it holds of.
    pub fn first<F: Fn(Number<K>) -> bool>(test: F) -> Option<Number<K>>
        ghost p: { ℕ → Bool }
        requires can { (n : ℕ) → From 1 K.LAST n → F.pre test (numbered_as n) }
        requires tells { (n : ℕ) (r : Bool) → From 1 K.LAST n → F.post test (numbered_as n) r → r ≡ p n }
        ensures { result ≡ maybe_number (first_where p (up_to K.LAST)) }
    {
        for n in 0..K::LAST {
            let number = Number(n + 1, PhantomData);
            if test(number) {
                return Some(number);
            }
        }
        None
    }
}

impl<K> Number<K> {
    // 0 names nothing; a caller has seen that the number is in range.
    #[tactic(auto, unfolding(crate::specs::Number::maybe_number))]
    fn maybe(n: u32) -> Option<Number<K>>
        ensures { result ≡ maybe_number n }
    {
        if n == 0 {
            None
        } else {
            Some(Number(n, PhantomData))
        }
    }

    pub fn word(self) -> u32
        ensures { result ≡ self.0 }
    {
        self.0
    }
}

// A task as a number, 0 for none.
pub fn task_word(task: Option<TaskNumber>) -> u32
    ensures { result ≡ task_word task }
{
    task.map_or(0, |t| t.word())
}

// As a log has it, in one byte: 0 for none.
pub fn task_byte(task: Option<TaskNumber>) -> u8
    ensures { result ≡ low_byte (task_word task) }
{
    (task_word(task) % 256) as u8
}

impl TaskNumber {
    // As a log has it, in one byte.
    pub fn byte(self) -> u8
        ensures { result ≡ low_byte self.0 }
    {
        (self.0 % 256) as u8
    }
}
