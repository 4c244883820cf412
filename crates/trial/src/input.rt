// Reading calls.
ghost use Rattle.std.specs.Prelude.{◌≤◌, length, IfOk};

use reading::read_full;
use std::io;
use std::io::Read;

// What the letter of a call asks for.
#[derive(Clone, Copy)]
pub enum Kind {
    Record,
    Words,
    Table,
    Damage,
    Keep,
    Hand,
    End,
    Open,
    Scan,
    Settle,
    Level,
    Close,
    Ask,
    Query,
    Beyond,
    Cut,
    Line,
    Next,
    // Any other letter: the call does nothing.
    Other,
}

impl From<u8> for Kind {
    fn from(letter: u8) -> Kind {
        match letter {
            b'R' => Kind::Record,
            b'W' => Kind::Words,
            b'G' => Kind::Table,
            b'D' => Kind::Damage,
            b'K' => Kind::Keep,
            b'H' => Kind::Hand,
            b'E' => Kind::End,
            b'O' => Kind::Open,
            b'S' => Kind::Scan,
            b'T' => Kind::Settle,
            b'L' => Kind::Level,
            b'C' => Kind::Close,
            b'A' => Kind::Ask,
            b'Q' => Kind::Query,
            b'B' => Kind::Beyond,
            b'N' => Kind::Cut,
            b'I' => Kind::Line,
            b'F' => Kind::Next,
            _ => Kind::Other,
        }
    }
}

#[derive(Clone, Copy)]
pub struct Head {
    pub kind: Kind,
    pub flag: u8,
    pub levels: usize,
    pub length: usize,
    pub value: u64,
}

// A number of up to 8 bytes, lowest byte first.
fn number_in(bytes: &[u8]) -> u64 {
    bytes
        .iter()
        .rev()
        .fold(0, |number, &byte| (number << 8) | u64::from(byte))
}

// None where the input ends, or letter 0 stands.
pub fn read_head<R: Read>(input: &mut R) -> io::Result<Option<Head>> {
    let mut bytes = [0u8; 16];
    read_full(input, &mut bytes)?;
    if bytes[0] == 0 {
        return Ok(None);
    }
    Ok(Some(Head {
        kind: Kind::from(bytes[0]),
        flag: bytes[1],
        levels: number_in(&bytes[2..4]) as usize,
        length: number_in(&bytes[4..8]) as usize,
        value: number_in(&bytes[8..16]),
    }))
}

// Reads so many bytes, or none where they are too many. (A buffer, and how much of it is filled: nothing allocates.)
pub fn read_bytes<R: Read>(input: &mut R, size: usize, into: &mut [u8]) -> io::Result<usize>
    ensures { IfOk result (λ n. n ≤ length into.new) }
{
    if into.len() < size {
        return Ok(0);
    }
    read_full(input, &mut into[..size])
}

// As many cuts as there are, and as there is room for.
pub fn read_cuts(bytes: &[u8], cuts: &mut [usize]) -> usize
    ensures { result ≤ length cuts.new }
{
    for (cut, number) in cuts.iter_mut().zip(bytes.chunks_exact(8)) {
        *cut = number_in(number) as usize;
    }
    cuts.len().min(bytes.len() / 8)
}
