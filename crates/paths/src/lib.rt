// Reading a path, one step at a time.
#![tactic(auto)]

ghost use Rattle.std.specs.Prelude.{◌≡◌, ◌-◌, ◌≤◌, min, length};
ghost use Rattle.paths.specs.Path.{is_head, is_digit, is_tail, run_end, decimal, name_at, bracketed, number_at, step_at};
ghost use Rattle.paths.specs.Helpers.{told, some_step, limits_of, path_check};
ghost use Rattle.paths.specs.declared.PathRefusal.TheVariants.{Bad};

// A step of a path. What follows it begins at next.
#[derive(Clone, Copy, Debug, PartialEq, Eq)]
pub enum PathStep {
    // `.name`: its bytes are start to end.
    Name {
        start: usize,
        end: usize,
        next: usize,
    },
    // `[number]`, told as 16,777,216 where it is above 16,777,215.
    Number {
        value: usize,
        next: usize,
    },
}

// The place of the first byte that no path could have there, or the length.
#[derive(Clone, Copy, Debug, PartialEq, Eq)]
pub struct BadPath {
    pub place: usize,
}

// Why a path is not walked.
#[derive(Clone, Copy, Debug, PartialEq, Eq)]
pub enum PathRefusal {
    Bad { place: usize },
    TooLarge,
    TooDeep,
}

impl From<BadPath> for PathRefusal {
    ghost from_gives = { λ bad e. e ≡ Bad bad.place };

    fn from(bad: BadPath) -> PathRefusal {
        PathRefusal::Bad { place: bad.place }
    }
}

#[derive(Clone, Copy)]
struct Digits {
    end: usize,
    value: usize,
}

fn is_head(b: u8) -> bool
    ensures { result ≡ is_head b }
{
    b.is_ascii_alphabetic() || b == b'_'
}

fn is_tail(b: u8) -> bool
    ensures { result ≡ is_tail b }
{
    is_head(b) || b.is_ascii_digit()
}

fn name_end(path: &[u8], from: usize) -> usize
    requires { from ≤ length path.now }
    ensures { result ≡ run_end is_tail path.now from }
{
    for i in from..path.len() {
        if !is_tail(path[i]) {
            return i;
        }
    }
    path.len()
}

// A value stays at 16,777,216 once it is above 16,777,215. (No Option: `told`, which `read_step` promises, has that number.)
fn read_digits(path: &[u8], from: usize) -> Digits
    requires { from ≤ length path.now }
    ensures { (result.end ≡ run_end is_digit path.now from) × (result.value ≡ min (decimal path.now from (result.end - from)) 16777216) }
{
    let mut value: usize = 0;
    for i in from..path.len() {
        let b = path[i];
        if !b.is_ascii_digit() {
            return Digits { end: i, value };
        }
        value = (value * 10 + (b - b'0') as usize).min(16777216);
    }
    Digits {
        end: path.len(),
        value,
    }
}

fn read_name(path: &[u8], from: usize) -> Result<PathStep, BadPath>
    ensures { some_step result ≡ told (name_at path.now from) }
{
    if from < path.len() && is_head(path[from]) {
        let end = name_end(path, from + 1);
        Ok(PathStep::Name {
            start: from,
            end,
            next: end,
        })
    } else {
        Err(BadPath { place: from })
    }
}

// The bracket behind a number's digits.
fn close_number(path: &[u8], end: usize, value: usize) -> Result<PathStep, BadPath>
    requires { value ≤ 16777216 }
    ensures { some_step result ≡ told (bracketed path.now end value) }
{
    if end < path.len() && path[end] == b']' {
        Ok(PathStep::Number {
            value,
            next: end + 1,
        })
    } else {
        Err(BadPath { place: end })
    }
}

fn read_number(path: &[u8], from: usize) -> Result<PathStep, BadPath>
    ensures { some_step result ≡ told (number_at path.now from) }
{
    if path.len() <= from || !path[from].is_ascii_digit() {
        return Err(BadPath { place: from });
    }
    if path[from] == b'0' {
        return close_number(path, from + 1, 0);
    }
    let digits = read_digits(path, from);
    close_number(path, digits.end, digits.value)
}

// The step that begins at a place of the path, if anything is left there.
pub fn read_step(path: &[u8], at: usize) -> Result<Option<PathStep>, BadPath>
    ensures { result ≡ told (step_at path.now at) }
{
    if path.len() <= at {
        return Ok(None);
    }
    match path[at] {
        b'.' => Ok(Some(read_name(path, at + 1)?)),
        b'[' => Ok(Some(read_number(path, at + 1)?)),
        _ => Err(BadPath { place: at }),
    }
}

fn check_limits(big: bool, steps: usize, levels: usize) -> Result<(), PathRefusal>
    ensures { result ≡ limits_of big steps levels }
{
    if big {
        return Err(PathRefusal::TooLarge);
    }
    if levels < steps {
        return Err(PathRefusal::TooDeep);
    }
    Ok(())
}

// The whole path: its length, its grammar, its numbers and how many steps it has, in this order.
pub fn check_path(path: &[u8], levels: usize) -> Result<(), PathRefusal>
    ensures { result ≡ path_check path.now levels }
{
    if 1024 < path.len() {
        return Err(PathRefusal::TooLarge);
    }
    if path.is_empty() || path[0] != b'$' {
        return Err(PathRefusal::Bad { place: 0 });
    }
    let mut at: usize = 1;
    let mut big = false;
    let mut steps: usize = 0;
    while let Some(step) = read_step(path, at)? {
        match step {
            PathStep::Name { next, .. } => at = next,
            PathStep::Number { value, next } => {
                big = big || 16777215 < value;
                at = next;
            }
        }
        steps += 1;
    }
    check_limits(big, steps, levels)
}
