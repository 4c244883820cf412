// The exports: each calls the function of `face` of its name, and says the same. (include/wararish.h tells C.)
#![tactic(auto)]

ghost use Rattle.std.specs.Prelude.{◌+◌, length};
ghost use Rattle.runs.specs.Whole.{plainly};
ghost use Rattle.whole.specs.Calls.{calls_of};
ghost use Rattle.face.specs.Outcomes.{RunTells, QueryTells, TableTells, LineTells, NextTells};

#[unsafe(no_mangle)]
pub extern "C" fn wararish_run(
    text: &[u8],
    words: &mut [u64],
    levels: usize,
    cuts: &[usize],
    calls: &[u8],
    place: &mut usize,
) -> u64
    ensures { RunTells text.now words.old levels cuts.now (calls_of calls.now) result place.new words.new }
{
    face::wararish_run(text, words, levels, cuts, calls, place)
}

#[unsafe(no_mangle)]
pub extern "C" fn wararish_index(
    text: &[u8],
    words: &mut [u64],
    levels: usize,
    cuts: &[usize],
    place: &mut usize,
) -> u64
    ensures { RunTells text.now words.old levels cuts.now (plainly (length cuts.now + 1)) result place.new words.new }
{
    face::wararish_index(text, words, levels, cuts, place)
}

#[unsafe(no_mangle)]
pub extern "C" fn wararish_query(
    text: &[u8],
    words: &[u64],
    levels: usize,
    path: &[u8],
    place: &mut usize,
    size: &mut usize,
    step: &mut usize,
) -> u64
    ensures { QueryTells text.now words.now levels path.now result place.new size.new step.new }
{
    face::wararish_query(text, words, levels, path, place, size, step)
}

#[unsafe(no_mangle)]
pub extern "C" fn wararish_table(text: &[u8], table: &mut [usize], count: &mut usize) -> u64
    ensures { TableTells text.now table.old result count.new table.new }
{
    face::wararish_table(text, table, count)
}

#[unsafe(no_mangle)]
pub extern "C" fn wararish_line(
    text: &[u8],
    table: &[usize],
    line: usize,
    words: &mut [u64],
    levels: usize,
    place: &mut usize,
) -> u64
    ensures { LineTells text.now table.now line levels words.old result place.new words.new }
{
    face::wararish_line(text, table, line, words, levels, place)
}

#[unsafe(no_mangle)]
pub extern "C" fn wararish_next_line(
    text: &[u8],
    from: usize,
    start: &mut usize,
    end: &mut usize,
) -> u64
    ensures { NextTells text.now from result start.new end.new }
{
    face::wararish_next_line(text, from, start, end)
}
