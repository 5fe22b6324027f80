// Words and numbers in bytes. Every place is held to what is there, so no caller has to show that it is.
ghost use Rattle.std.specs.Prelude.{◌≡◌, ◌≤◌, IfSome, length, min, slice_range};

// What stands from one place up to another.
pub fn between<T>(all: &[T], from: usize, to: usize) -> &[T]
    ensures { result.now ≡ slice_range all.now (min from (min to (length all.now))) (min to (length all.now)) }
{
    let end = to.min(all.len());
    &all[from.min(end)..end]
}

// What a stretch of bytes is made of.
#[derive(Clone, Copy)]
pub enum Stretch {
    Blanks,
    Word,
    Line,
}

impl Stretch {
    fn has(self, byte: u8) -> bool {
        match self {
            Stretch::Blanks => is_blank(byte),
            Stretch::Word => !is_blank(byte),
            Stretch::Line => byte != b'\n',
        }
    }
}

fn is_blank(byte: u8) -> bool {
    matches!(byte, b' ' | b'\t' | b',' | b'\r')
}

// Where a stretch that begins at `from` ends.
pub fn end_of(all: &[u8], from: usize, stretch: Stretch) -> usize
    ensures { result ≤ length all.now }
{
    let start = from.min(all.len());
    for (passed, byte) in all[start..].iter().enumerate() {
        if !stretch.has(*byte) {
            return start + passed;
        }
    }
    all.len()
}

// Reads the numbers after a command's word, up to a remark, and answers the part of the lent memory that they fill. More
// than there is room for is wrong for every command, as is a word that is no number.
pub fn read_numbers<'a>(line: &[u8], numbers: &'a mut [u32]) -> Option<&'a [u32]>
    ensures { IfSome result (λ part. length part.now ≤ length numbers.old) }
{
    let mut rest = line;
    let mut count = 0usize;
    for _ in 0..line.len() {
        let Some((word, after)) = next_word(rest) else {
            return Some(between(numbers, 0, count));
        };
        *numbers.get_mut(count)? = number_of(word)?;
        count += 1;
        rest = after;
    }
    Some(between(numbers, 0, count))
}

// The word that comes next, and what stands after it; none where only blanks are left, or a remark begins.
fn next_word(line: &[u8]) -> Option<(&[u8], &[u8])> {
    let words = &line[end_of(line, 0, Stretch::Blanks)..];
    if words.is_empty() || words[0] == b'#' {
        return None;
    }
    Some(words.split_at(end_of(words, 0, Stretch::Word)))
}

// The number that a word of digits means, if it fits 32 bits.
// Stays: the program does what it did: `parse` would read a sign too.
fn number_of(word: &[u8]) -> Option<u32> {
    let mut value = 0u32;
    for byte in word {
        let digit = char::from(*byte).to_digit(10)?;
        value = u32::try_from(u64::from(value) * 10 + u64::from(digit)).ok()?;
    }
    Some(value)
}

// One of a line's or a list's numbers, 0 where there are not so many.
pub fn at<T: Copy + Default>(numbers: &[T], i: usize) -> T {
    numbers.get(i).copied().unwrap_or_default()
}
