// The line that the class sheet reads: exactly one, `k m L`.
#![tactic(auto)]

ghost use Rattle.std.specs.Prelude.{◌≡◌, ℕ, ◌≤◌, ◌<◌, length, MatchOption};
ghost use Rattle.table.specs.Refusals.{told};
ghost use Rattle.line.specs.Reading.{DigitAt, NoDigitAt, NumberAt, TokenAt, NoTokenAt};
ghost use Rattle.line.specs.Promise as promise;
ghost use Rattle.line.specs.Promise.{sheet_checks, LineRead};
ghost use Rattle.line.specs.Given.{k_given, m_given, l_given};

use table::Refusal;

// The three numbers of a line: k, m and the length.
#[derive(Clone, Copy, Debug, PartialEq, Eq)]
pub struct Line {
    pub k: u64,
    pub m: u64,
    pub l: u64,
}

// A number of the line, and the place after it.
#[derive(Clone, Copy)]
struct Token {
    value: u64,
    next: usize,
}

// The digit at i.
fn digit_at(input: &[u8], i: usize) -> Option<u64>
    ensures { MatchOption result (NoDigitAt input.now i) (λ d. DigitAt input.now i d) }
{
    match *input.get(i)? {
        b @ b'0'..=b'9' => Some(u64::from(b - b'0')),
        _ => None,
    }
}

// The number at i, of at most three digits: after a 0 no digit is looked for.
fn number_at(input: &[u8], i: usize) -> Option<Token>
    requires { i ≤ length input.now }
    ensures { MatchOption result (NoDigitAt input.now i) (λ t. NumberAt input.now i t.value t.next) }
{
    let a = digit_at(input, i)?;
    if a == 0 {
        return Some(Token {
            value: 0,
            next: i + 1,
        });
    }
    let Some(b) = digit_at(input, i + 1) else {
        return Some(Token {
            value: a,
            next: i + 1,
        });
    };
    let two = 10 * a + b;
    let Some(c) = digit_at(input, i + 2) else {
        return Some(Token {
            value: two,
            next: i + 2,
        });
    };
    Some(Token {
        value: 10 * two + c,
        next: i + 3,
    })
}

// The number at i, where the byte stop stands after it.
fn token_at(input: &[u8], i: usize, stop: u8) -> Option<Token>
    requires { (i ≤ length input.now) × (stop < 48) }
    ensures { MatchOption result (NoTokenAt input.now i stop) (λ t. TokenAt input.now i stop t.value t.next) }
{
    let n = number_at(input, i)?;
    if input.get(n.next) != Some(&stop) {
        return None;
    }
    Some(Token {
        value: n.value,
        next: n.next + 1,
    })
}

// The three numbers of the line, where the input is one.
fn parsed(input: &[u8]) -> Option<Line>
    ensures { MatchOption result ((k : ℕ) (m : ℕ) (l : ℕ) → promise.Line input.now k m l → ⊥) (λ line. promise.Line input.now line.k line.m line.l) }
{
    let k = token_at(input, 0, b' ')?;
    let m = token_at(input, k.next, b' ')?;
    let l = token_at(input, m.next, b'\n')?;
    if l.next != input.len() {
        return None;
    }
    Some(Line {
        k: k.value,
        m: m.value,
        l: l.value,
    })
}

// Reads the line: 18, 1 or 2, or its three numbers.
pub fn read(input: &[u8]) -> Result<Line, Refusal>
    ensures { LineRead (sheet_checks input.now) input.now (told result) (k_given result) (m_given result) (l_given result) }
{
    let line = parsed(input).ok_or(Refusal::Line)?;
    checks::check_size(line.k, line.m)?;
    checks::check_length(line.l)?;
    Ok(line)
}
