// The numbers of the streams that a program is started with, as the system has them.
pub const STDIN: i32 = 0;

pub const STDOUT: i32 = 1;

pub const STDERR: i32 = 2;
