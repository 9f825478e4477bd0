// The fields of a line, and the numbers that they write.
ghost use Rattle.std.specs.Prelude.{◌≡◌, ◌<◌, ◌≤◌, ◌==◌, length, drop, position, if◌then◌else◌, Some, None};
ghost use Rattle.roadtext.specs.Text.{number as number_of, all_digits, digits_after, fields, left, field as field_of};
ghost use Rattle.std.specs.Option.{option_map};

// The number that the bytes write, if they are decimal digits and no more than fit.
fn read_digits(text: &[u8]) -> Option<u64>
    requires { length text.now < 20 }
    ensures { result ≡ (if all_digits text.now then Some (digits_after 0 text.now) else None) }
{
    // By hand, since the library's `parse` takes a plus sign too; a loop, since in a `try_fold` nothing bounds the number so far
    // (tried).
    let mut n: u64 = 0;
    for b in text {
        if !b.is_ascii_digit() {
            return None;
        }
        n = 10 * n + u64::from(*b - b'0');
    }
    Some(n)
}

// The number that a field writes, if it has 1 to 10 digits and nothing else.
pub(crate) fn number(text: &[u8]) -> Option<u64>
    ensures { result ≡ number_of text.now }
{
    if text.len() < 1 || text.len() > 10 {
        return None;
    }
    read_digits(text)
}

// The place of the first space.
fn space(text: &[u8]) -> Option<usize>
    ensures { result ≡ position (λ b. b == 32) text.now }
{
    text.iter().position(|b| *b == b' ')
}

// The first field of what is left of a line, if anything is left, and what is left after it. (After the last field nothing is left;
// after a space at the end of a line an empty field is left.)
pub(crate) fn cut(rest: Option<&[u8]>) -> (Option<&[u8]>, Option<&[u8]>)
    ensures first { option_map (λ x. x.now) result.0 ≡ field_of (left (option_map (λ x. x.now) rest.entry)) 1 }
    ensures after { left (option_map (λ x. x.now) result.1) ≡ drop 1 (left (option_map (λ x. x.now) rest.entry)) }
{
    let Some(text) = rest else {
        return (None, None);
    };
    match space(text) {
        Some(end) => (Some(&text[..end]), Some(&text[end + 1..])),
        None => (Some(text), None),
    }
}

// A line, and its fields 2 to 5, where it has so many: what comes after the letter, and one field more than a line may have.
#[derive(Clone, Copy)]
pub(crate) struct Fields<'a> {
    line: &'a [u8],
    second: Option<&'a [u8]>,
    third: Option<&'a [u8]>,
    fourth: Option<&'a [u8]>,
    fifth: Option<&'a [u8]>,
    ghost second_is: { option_map (λ x. x.now) second ≡ field_of (fields line.now) 2 },
    ghost third_is: { option_map (λ x. x.now) third ≡ field_of (fields line.now) 3 },
    ghost fourth_is: { option_map (λ x. x.now) fourth ≡ field_of (fields line.now) 4 },
    ghost fifth_is: { option_map (λ x. x.now) fifth ≡ field_of (fields line.now) 5 },
}

impl<'a> Fields<'a> {
    // The fields of a line, cut off one after the other.
    pub(crate) fn of(line: &'a [u8]) -> Fields<'a>
        ensures { result.line.now ≡ line.now }
    {
        let (_, after_letter) = cut(Some(line));
        let (second, after_second) = cut(after_letter);
        let (third, after_third) = cut(after_second);
        let (fourth, after_fourth) = cut(after_third);
        let (fifth, _) = cut(after_fourth);
        Fields {
            line,
            second,
            third,
            fourth,
            fifth,
        }
    }

    // Field number `i` of the line, counted from 1, if it has so many.
    pub(crate) fn field(&self, i: u64) -> Option<&'a [u8]>
        requires { (2 ≤ i) × (i ≤ 5) }
        ensures { option_map (λ x. x.now) result ≡ field_of (fields self.now.line.now) i }
    {
        match i {
            2 => self.second,
            3 => self.third,
            4 => self.fourth,
            _ => self.fifth,
        }
    }
}
