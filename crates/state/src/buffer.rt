// The message buffers' fields.
ghost use Rattle.std.specs.Prelude.{◌≡◌};
ghost use Rattle.model.specs.Lists.{◌!◌};
ghost use Rattle.model.specs.Kernel.{with_buffer_exists, with_buffer_attribute, with_bufsz, with_maxmsz, with_used};
ghost use Rattle.model.specs.Words.{kernel};
ghost use Rattle.state.specs.Words.{Represents};

use super::layout::{
    BUFFER_ATTRIBUTE, BUFFER_EXISTS, BUFFER_SLOTS, BUFSZ, MAXMSZ, USED, Words, get, put,
};
use model::number::BufferNumber;

// 1 if the buffer exists, else 0.
pub fn exists(state: &Words, b: BufferNumber) -> u32
    ensures { result ≡ (kernel state.now).buffers.exists ! b.0 }
{
    get(state, BUFFER_EXISTS, BUFFER_SLOTS, b.word() as usize)
}

pub fn set_exists(state: &mut Words, b: BufferNumber, v: u32)
    ensures { Represents state.new (with_buffer_exists (kernel state.old) b.0 v) }
{
    put(state, BUFFER_EXISTS, BUFFER_SLOTS, b.word() as usize, v);
}

// The attribute, 0 or 1.
pub fn attribute(state: &Words, b: BufferNumber) -> u32
    ensures { result ≡ (kernel state.now).buffers.attribute ! b.0 }
{
    get(state, BUFFER_ATTRIBUTE, BUFFER_SLOTS, b.word() as usize)
}

pub fn set_attribute(state: &mut Words, b: BufferNumber, v: u32)
    ensures { Represents state.new (with_buffer_attribute (kernel state.old) b.0 v) }
{
    put(state, BUFFER_ATTRIBUTE, BUFFER_SLOTS, b.word() as usize, v);
}

// The size that it was created with.
pub fn bufsz(state: &Words, b: BufferNumber) -> u32
    ensures { result ≡ (kernel state.now).buffers.bufsz ! b.0 }
{
    get(state, BUFSZ, BUFFER_SLOTS, b.word() as usize)
}

pub fn set_bufsz(state: &mut Words, b: BufferNumber, v: u32)
    ensures { Represents state.new (with_bufsz (kernel state.old) b.0 v) }
{
    put(state, BUFSZ, BUFFER_SLOTS, b.word() as usize, v);
}

// The longest message.
pub fn maxmsz(state: &Words, b: BufferNumber) -> u32
    ensures { result ≡ (kernel state.now).buffers.maxmsz ! b.0 }
{
    get(state, MAXMSZ, BUFFER_SLOTS, b.word() as usize)
}

pub fn set_maxmsz(state: &mut Words, b: BufferNumber, v: u32)
    ensures { Represents state.new (with_maxmsz (kernel state.old) b.0 v) }
{
    put(state, MAXMSZ, BUFFER_SLOTS, b.word() as usize, v);
}

// Bytes of the region in use.
pub fn used(state: &Words, b: BufferNumber) -> u32
    ensures { result ≡ (kernel state.now).buffers.used ! b.0 }
{
    get(state, USED, BUFFER_SLOTS, b.word() as usize)
}

pub fn set_used(state: &mut Words, b: BufferNumber, v: u32)
    ensures { Represents state.new (with_used (kernel state.old) b.0 v) }
{
    put(state, USED, BUFFER_SLOTS, b.word() as usize, v);
}
