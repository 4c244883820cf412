// Names by their characters: an escape read, and a name of the record compared with a path's.
#![tactic(auto)]

ghost use Rattle.std.specs.Prelude.{◌≡◌, ◌≤◌, ◌<◌, ltb, length, get_or, Ok, Err};
ghost use Rattle.rules.specs.Word.{pick, told_if, below};
ghost use Rattle.names.specs.Spelling.{hex_of, four_of, unit_of, short_of, wide, one, no_escape, spelt, spelling, matched};
ghost use Rattle.names.specs.Helpers.{another};

// A character of a name, written in so many bytes more than one.
#[derive(Clone, Copy, Debug, PartialEq, Eq)]
pub struct Spelt {
    pub character: u32,
    pub more: usize,
}

// An escape that RFC 8259 has not, or half a pair of surrogates.
#[derive(Clone, Copy, Debug, PartialEq, Eq)]
pub struct BadEscape;

// The value of a hexadecimal digit.
fn hex_of(b: u8) -> Option<u32>
    ensures { result ≡ below 16 (hex_of b) }
{
    (b as char).to_digit(16)
}

// What a letter behind a backslash means.
#[tactic(auto, unfolding(crate::specs::Spelling::short_of))]
fn short_of(b: u8) -> Option<u32>
    ensures { result ≡ told_if (ltb 0 (short_of b)) (short_of b) }
{
    match b {
        b'"' => Some(0x22),
        b'\\' => Some(0x5C),
        b'/' => Some(0x2F),
        b'b' => Some(0x08),
        b'f' => Some(0x0C),
        b'n' => Some(0x0A),
        b'r' => Some(0x0D),
        b't' => Some(0x09),
        _ => None,
    }
}

// Four hexadecimal digits.
#[tactic(auto, using(crate::proofs::SpellingLaws::hex_told, crate::proofs::SpellingLaws::hex_untold), unfolding(crate::specs::Spelling::four_of))]
fn four_digits(digits: &[u8]) -> Option<u32>
    requires { 4 ≤ length digits.now }
    ensures { result ≡ below 0x10000 (four_of (get_or digits.now 0 0) (get_or digits.now 1 0) (get_or digits.now 2 0) (get_or digits.now 3 0)) }
{
    let x = hex_of(digits[0])?;
    let y = hex_of(digits[1])?;
    let z = hex_of(digits[2])?;
    let u = hex_of(digits[3])?;
    Some(((x * 16 + y) * 16 + z) * 16 + u)
}

// In front stands `\u` with four hexadecimal digits: the 16 bits written.
fn unit_at(name: &[u8]) -> Option<u32>
    ensures { result ≡ below 0x10000 (unit_of name.now) }
{
    if name.len() < 6 || name[0] != b'\\' || name[1] != b'u' {
        return None;
    }
    four_digits(&name[2..])
}

// Of 16 bits u, before the rest of a name.
fn wide_of(u: u32, rest: &[u8]) -> Result<Spelt, BadEscape>
    ensures { result ≡ wide u (unit_of rest.now) }
{
    match u {
        0xD800..=0xDBFF => match unit_at(rest) {
            Some(v @ 0xDC00..=0xDFFF) => Ok(Spelt {
                character: 0x10000 + (u - 0xD800) * 0x400 + (v - 0xDC00),
                more: 11,
            }),
            _ => Err(BadEscape),
        },
        0xDC00..=0xDFFF => Err(BadEscape),
        _ => Ok(Spelt {
            character: u,
            more: 5,
        }),
    }
}

// Behind the backslash in front stands one letter.
fn short_at(name: &[u8]) -> Result<Spelt, BadEscape>
    ensures { result ≡ pick (ltb 0 (short_of (get_or name.now 1 0))) (one (short_of (get_or name.now 1 0)) 1) (Err no_escape) }
{
    if name.len() < 2 {
        return Err(BadEscape);
    }
    let character = short_of(name[1]).ok_or(BadEscape)?;
    Ok(Spelt { character, more: 1 })
}

// What stands in front.
fn spelt_at(name: &[u8]) -> Result<Spelt, BadEscape>
    requires { 0 < length name.now }
    ensures { result ≡ spelt name.now }
{
    if name[0] != b'\\' {
        return Ok(Spelt {
            character: name[0] as u32,
            more: 0,
        });
    }
    match unit_at(name) {
        Some(u) => wide_of(u, &name[6..]),
        None => short_at(name),
    }
}

// The rest of a name that is another's already.
fn read_on(name: &[u8]) -> Result<bool, BadEscape>
    ensures { result ≡ another (spelling name.now) }
{
    let mut rest = name;
    while !rest.is_empty() {
        let here = spelt_at(rest)?;
        rest = &rest[1 + here.more..];
    }
    Ok(false)
}

// Character after character.
fn match_spelt(name: &[u8], wanted: &[u8]) -> Result<bool, BadEscape>
    ensures { result ≡ matched wanted.now name.now }
{
    let mut rest = name;
    let mut left = wanted;
    while !rest.is_empty() {
        let here = spelt_at(rest)?;
        rest = &rest[1 + here.more..];
        if left.is_empty() || left[0] as u32 != here.character {
            return read_on(rest);
        }
        left = &left[1..];
    }
    Ok(left.is_empty())
}

// A name of the record, for the name of a path. Without a backslash the bytes are compared.
pub fn match_name(name: &[u8], wanted: &[u8]) -> Result<bool, BadEscape>
    ensures { result ≡ matched wanted.now name.now }
{
    if name.contains(&b'\\') {
        match_spelt(name, wanted)
    } else {
        Ok(name == wanted)
    }
}
