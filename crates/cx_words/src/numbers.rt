//! Numbers and kinds as words give them.
ghost use Rattle.std.specs.Prelude.{◌≡◌, ◌≤◌, ◌&&◌, Some, None, if◌then◌else◌, nat_lt, nat_le, length, IfSome};
ghost use Rattle.std.specs.List.{list_all};
ghost use Rattle.std.specs.Char.{is_ascii_digit};
ghost use Rattle.cx_words.specs.Given.{lent, number_in, conflicts_of, options_of, is_set, size_of, seed_of, kind_of, kind_named};

use crate::{InstanceKind, SearchOptions};

/// The conflicts at which a search that is given no number of them stops.
const DEFAULT_CONFLICTS: u64 = 1_000_000;
/// The greatest number of conflicts that may be given.
const MOST_CONFLICTS: u64 = 1_000_000_000_000_000_000;
/// The least size of an instance.
const LEAST_SIZE: u64 = 4;
/// The greatest size of an instance.
const MOST_SIZE: u64 = 2000;

fn all_digits(text: &[u8]) -> bool
    ensures { result ≡ list_all is_ascii_digit text.now }
{
    text.iter().all(|byte| byte.is_ascii_digit())
}

/// Digits alone, and at least one.
fn is_digits(text: &str) -> bool
    ensures { result ≡ (list_all is_ascii_digit text.now && nat_lt 0 (length text.now)) }
{
    all_digits(text.as_bytes()) && !text.is_empty()
}

fn within(number: u64, least: u64, most: u64) -> Option<u64>
    ensures { result ≡ (if nat_le least number && nat_le number most then Some number else None) }
{
    if least <= number && number <= most {
        Some(number)
    } else {
        None
    }
}

/// The number that digits spell, where it is in the range.
fn number(text: &str, least: u64, most: u64) -> Option<u64>
    ensures { result ≡ number_in least most text.now }
{
    if !is_digits(text) {
        return None;
    }
    match text.parse::<u64>() {
        Ok(number) => within(number, least, most),
        Err(_) => None,
    }
}

/// The number of conflicts, from 1 to 10^18.
fn conflicts(text: Option<&str>) -> Option<u64>
    ensures { result ≡ conflicts_of (lent text.entry) }
{
    match text {
        None => Some(DEFAULT_CONFLICTS),
        Some(text) => number(text, 1, MOST_CONFLICTS),
    }
}

/// Whether a flag is set. clap gives a flag a value, which is `true` where the flag is given.
fn is_set(text: Option<&str>) -> bool
    ensures { result ≡ is_set (lent text.entry) }
{
    match text {
        None => false,
        Some(text) => text == "true",
    }
}

/// The options of a search, where its number of conflicts is in range.
pub(crate) fn options(budget: Option<&str>, inprocess: Option<&str>) -> Option<SearchOptions>
    ensures { result ≡ options_of (lent budget.entry) (lent inprocess.entry) }
{
    let conflicts = conflicts(budget)?;
    let inprocess = is_set(inprocess);
    Some(SearchOptions {
        conflicts,
        inprocess,
    })
}

/// The size of an instance, from 4 to 2000.
pub(crate) fn size(text: Option<&str>) -> Option<u32>
    ensures { result ≡ size_of (lent text.entry) }
{
    match text {
        None => None,
        Some(text) => narrowed(number(text, LEAST_SIZE, MOST_SIZE)),
    }
}

fn narrowed(number: Option<u64>) -> Option<u32>
    requires { IfSome number (λ n. n ≤ 2000) }
    ensures { result ≡ number }
{
    match number {
        None => None,
        Some(number) => Some(number as u32),
    }
}

/// A seed, which may be any `u64`.
pub(crate) fn seed(text: Option<&str>) -> Option<u64>
    ensures { result ≡ seed_of (lent text.entry) }
{
    match text {
        None => None,
        Some(text) => number(text, 0, u64::MAX),
    }
}

fn named(text: &str) -> Option<InstanceKind>
    ensures { result ≡ kind_named text.now }
{
    if text == "even" {
        return Some(InstanceKind::Even);
    }
    if text == "odd" {
        return Some(InstanceKind::Odd);
    }
    None
}

/// The kind of an instance: `even` or `odd`.
pub(crate) fn kind(text: Option<&str>) -> Option<InstanceKind>
    ensures { result ≡ kind_of (lent text.entry) }
{
    match text {
        None => None,
        Some(text) => named(text),
    }
}
