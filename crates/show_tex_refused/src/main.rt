//! The picture program: writes a picture of a TEX0 block to its standard output, as a PAM image. The arguments are the block's file, the texture's
//! number, and the palette's number or `-` for no palette. Where there is no picture standard output stays empty, and standard error says why: the
//! listing's line of a refusal, that the file is too long, why it cannot be opened, or how the program is used.

#![tactic(auto)]

ghost use Rattle.std.specs.Prelude.{◌+◌, ◌≤◌, length, IfSome};
ghost use Rattle.show.specs.declared.TheConstants.{MAX_BLOCK};

use arguments::{parse_choice, parse_number};
use show::{MAX_BLOCK, MAX_PAM};
use std::env::FillError;
use std::io::{ErrorKind, Read};
use std::rt::{Env, Files};
use std::{fs, io, str};

// The longest argument that is read, in bytes: no path that the system takes is longer.
const MAX_ARGUMENT: usize = 4096;

// The system's number for a name that is too long.
const ENAMETOOLONG: i32 = 36;

// Which picture: a texture's number, and the palette that is chosen.
#[derive(Clone, Copy, Debug, PartialEq, Eq)]
struct Request {
    n: usize,
    choice: Option<usize>,
}

fn print_usage(err: &impl Print) -> io::Result<()> {
    err.print("usage: show_tex FILE TEXTURE PALETTE\nPALETTE is a number, or - for none\n")
}

// An argument that does not fit is there all the same, so no room is needed to know of it.
fn has_argument(rt: &impl Env, i: usize) -> bool {
    !matches!(rt.arg(i, &mut []), Err(FillError::NotPresent))
}

// Argument 0 is the program's name.
fn has_three_arguments(rt: &impl Env) -> bool {
    has_argument(rt, 3) && !has_argument(rt, 4)
}

// An argument, where it is there and fits the text.
fn argument<'a>(rt: &impl Env, i: usize, text: &'a mut [u8; MAX_ARGUMENT]) -> Option<&'a [u8]>
    ensures { IfSome result (λ part. length part.now ≤ length text.old) }
{
    let len = rt.arg(i, text).ok()?;
    Some(&text[..len])
}

// The picture that is asked for, where there are three arguments that say so. A longer text than is read is malformed.
fn parse_arguments(rt: &impl Env) -> Option<Request> {
    if !has_three_arguments(rt) {
        return None;
    }
    let mut text = [0; MAX_ARGUMENT];
    Some(Request {
        n: parse_number(argument(rt, 2, &mut text)?)?,
        choice: parse_choice(argument(rt, 3, &mut text)?)?,
    })
}

// Reads until the input is full, the file ends or a read fails, and returns what was read. One byte more than may be read is enough to know
// that the file is too long, and no more is asked for: behind it a pipe that stays open would be waited for. The room that a copy which fails
// leaves is not promised to be less than the input, so the difference saturates.
fn read_file<'a>(file: &mut impl Read, input: &'a mut [u8; MAX_BLOCK + 1]) -> &'a [u8]
    ensures { length result.now ≤ MAX_BLOCK + 1 }
{
    let mut room = &mut input[..];
    let _ = io::copy(&mut file.take(room.len() as u64), &mut room);
    let left = room.len();
    &input[..input.len().saturating_sub(left)]
}

// What the text of an error says. Behind the system's words std's text has the error's number, which is not told.
fn words(text: &str) -> &str {
    text.rsplit_once(" (os error ")
        .map_or(text, |(words, _)| words)
}

// The path is told byte for byte, since it need not be text.
fn tell_unopened<R: Alloc>(
    rt: &R,
    err: &impl Print,
    path: &[u8],
    error: io::Error,
) -> io::Result<()> {
    let text = format!(in rt.alloc(); "{error}")?;
    err.write_all(path)?;
    println!(err; ": {}", words(text.as_str()))
}

// Opens a file for reading. The paths of std are UTF-8.
fn open<R: Files>(rt: &R, path: &[u8]) -> io::Result<R::File> {
    let path = str::from_utf8(path).map_err(|_| io::Error::new(
        ErrorKind::InvalidFilename,
        "the path is not UTF-8",
    ))?;
    fs::open(rt, path)
}

// Writes the image, which stands at the start of the output, or why there is none.
fn show(
    rt: &impl Print,
    err: &impl Print,
    file: &mut impl Read,
    request: Request,
) -> io::Result<()> {
    let mut input = [0; MAX_BLOCK + 1];
    let mut out = [0; MAX_PAM];
    let file = read_file(file, &mut input);
    match show::show(file, request.n, request.choice, &mut out) {
        Ok(len) => rt.write_all(&out[..len]),
        Err(unshown) => println!(err; "{unshown}"),
    }
}

// A path that is longer than its buffer is told by the argument's name.
fn show_file<R: Env + Files + Print + Alloc>(
    rt: &R,
    err: &impl Print,
    request: Request,
) -> io::Result<()> {
    let mut text = [0; MAX_ARGUMENT];
    let Some(path) = argument(rt, 1, &mut text) else {
        return tell_unopened(rt, err, b"FILE", io::Error::from_raw_os_error(ENAMETOOLONG));
    };
    match open(rt, path) {
        Ok(mut file) => show(rt, err, &mut file, request),
        Err(error) => tell_unopened(rt, err, path, error),
    }
}

// A write that fails ends the program with its error.
fn main(rt: HostRuntime) -> io::Result<()> {
    match parse_arguments(&rt) {
        Some(request) => show_file(&rt, &rt.stderr(), request),
        None => print_usage(&rt.stderr()),
    }
}
