// What the rules of a book say of a run of words, read off slowly and plainly, to compare with what open answers.
use drawing::{Refusal, Table};

// The word at a place, or 0 past the end.
fn word(words: &[u64], i: u64) -> u64 {
    usize::try_from(i)
        .ok()
        .and_then(|at| words.get(at).copied())
        .unwrap_or(0)
}

// Whether the number lies from low to high.
fn within(low: u64, high: u64, n: u64) -> bool {
    (low..=high).contains(&n)
}

// Whether one of the words from `first` up to `end` is this.
fn stands(words: &[u64], first: u64, end: u64, this: u64) -> bool {
    (first..end).any(|i| word(words, i) == this)
}

// How many of the words from `first` up to `end` are at most this.
fn at_most(words: &[u64], first: u64, end: u64, this: u64) -> u64 {
    (first..end).filter(|i| word(words, *i) <= this).count() as u64
}

// Words 2 to 7.
fn bad_count(words: &[u64], i: u64) -> bool {
    let n = word(words, 2);
    let q = word(words, 4);
    let k = word(words, 5);
    let l = word(words, 6);
    let total = 10u64
        .saturating_add(n.saturating_mul(3))
        .saturating_add(q)
        .saturating_add(k.saturating_mul(2))
        .saturating_add(l.saturating_mul(2));
    match i {
        2 => !within(1, 4_096, n),
        3 => !within(1, 64, word(words, 3)),
        4 => q > n,
        5 => k > n.saturating_mul(q),
        6 => l > n.saturating_mul(n),
        7 => word(words, 7) != total,
        _ => false,
    }
}

// Offsets from `first` up to `end`, of so many entries.
fn bad_offset(words: &[u64], first: u64, end: u64, entries: u64, i: u64) -> bool {
    let offset = word(words, i);
    let before = if i == first {
        0
    } else {
        word(words, i.saturating_sub(1))
    };
    let begins_wrong = i == first && offset != 0;
    let ends_wrong = i.saturating_add(1) == end && offset != entries;
    begins_wrong || offset < before || offset > entries || ends_wrong
}

// A word of the entries that begin at `first`, whose offsets lie from `offsets` up to `first`. A hub's name is below `ranks`, or,
// in district rows, a junction of the row's district.
fn bad_entry(words: &[u64], offsets: u64, first: u64, ranks: Option<u64>, i: u64) -> bool {
    let this = word(words, i);
    let j = i.saturating_sub(first);
    if j % 2 == 1 {
        return this >= 4_294_967_295;
    }
    let row = at_most(words, offsets, first, j / 2);
    let wrong = match ranks {
        Some(q) => this >= q,
        None => {
            !within(1, word(words, 2), this)
                || word(words, this.saturating_add(7)) != word(words, row.saturating_add(7))
        }
    };
    let first_of_row = stands(words, offsets, first, j / 2);
    wrong || (!first_of_row && this <= word(words, i.saturating_sub(2)))
}

// Whether the word at place i is bad, given the words before it.
fn bad(words: &[u64], i: u64) -> bool {
    let n = word(words, 2);
    let order = n.saturating_add(8);
    let border_offsets = order.saturating_add(word(words, 4));
    let border_entries = border_offsets.saturating_add(n).saturating_add(1);
    let district_offsets = border_entries.saturating_add(word(words, 5).saturating_mul(2));
    let district_entries = district_offsets.saturating_add(n).saturating_add(1);
    if i < 8 {
        bad_count(words, i)
    } else if i < order {
        word(words, i) >= word(words, 3)
    } else if i < border_offsets {
        !within(1, n, word(words, i)) || stands(words, order, i, word(words, i))
    } else if i < border_entries {
        bad_offset(words, border_offsets, border_entries, word(words, 5), i)
    } else if i < district_offsets {
        bad_entry(
            words,
            border_offsets,
            border_entries,
            Some(word(words, 4)),
            i,
        )
    } else if i < district_entries {
        bad_offset(words, district_offsets, district_entries, word(words, 6), i)
    } else {
        bad_entry(words, district_offsets, district_entries, None, i)
    }
}

// What open is to be refused with under metres, if with anything.
pub fn refusal(words: &[u64]) -> Option<Refusal> {
    if words.len() < 8 || word(words, 0) != 1 {
        return Some(Refusal::NoBook);
    }
    if word(words, 1) != 1 {
        return Some(Refusal::OtherMeasure);
    }
    let total = word(words, 7);
    if (words.len() as u64) < total {
        return Some(Refusal::ShortBook { words: total });
    }
    (0..total.max(8))
        .find(|place| bad(words, *place))
        .map(|place| Refusal::BadEntry {
            table: Table::Book,
            place,
        })
}
