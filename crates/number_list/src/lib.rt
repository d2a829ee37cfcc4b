// A list of decimal numbers, read byte by byte.
#![tactic(auto)]

ghost use Rattle.std.specs.Prelude.{◌<◌};
ghost use Rattle.number_list.specs.Reads.{Ended, Reads};

// Ends the word at hand: a number is counted, and stored where the table has a cell for it.
fn end_word(table: &mut [u32], count: usize, digits: usize, value: u32) -> usize
    requires { count < 9223372036854775808 }
    ensures { Ended table.old table.new count result digits value }
{
    if digits == 0 {
        return count;
    }
    if count < table.len() {
        table[count] = value;
    }
    count + 1
}

// How many numbers the list has, if the input is one. Spaces and line feeds part the words. All of the list is checked and counted, also what the table
// has no cell for. What is no list is known at its first bad byte: `split` finds the end of a word before the word is looked at.
pub fn read(input: &[u8], table: &mut [u32]) -> Option<usize>
    ensures { Reads input.now table.new result }
{
    let mut count = 0;
    let mut digits = 0;
    let mut value = 0;
    for b in input {
        if b.is_ascii_digit() {
            if digits == 9 {
                return None;
            }
            value = value * 10 + u32::from(*b - b'0');
            digits += 1;
            continue;
        }
        if !matches!(b, b' ' | b'\n') {
            return None;
        }
        count = end_word(table, count, digits, value);
        digits = 0;
        value = 0;
    }
    Some(end_word(table, count, digits, value))
}
