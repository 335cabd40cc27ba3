// Layer 1, brackets: whether a line has the form's shape (docs/RULES.md, "The journal's form" and "Refusals").
#![tactic(auto)]

ghost use Rattle.std.specs.Prelude.{◌≡◌, ◌+◌, ◌≤◌, length, MatchOption, MatchResult};
ghost use Rattle.brackets.specs.Bytes.{admitted, Clean, FirstBad};
ghost use Rattle.brackets.specs.Grammar.{WellShaped, Stuck, Only};
ghost use Rattle.brackets.specs.Scanner.{step};
ghost use Rattle.brackets.specs.Layer.{Brackets};

// The most bytes that a line may have; a column or a place of the line fits a u8.
const LONGEST: usize = 200;

// Why a line is no form, with the column from 1.
#[derive(Clone, Copy, Debug, PartialEq, Eq)]
pub enum BracketFault {
    Long,
    Byte { column: u8 },
    Shape { column: u8 },
}

// Whether a line may hold this byte.
fn admits(b: u8) -> bool
    ensures { result ≡ admitted b }
{
    match b as char {
        'a'..='z' => true,
        '0'..='9' => true,
        '-' | ' ' | '(' | ')' => true,
        _ => false,
    }
}

// Where the first byte stands that no line may hold.
fn first_unadmitted(line: &[u8]) -> Option<usize>
    ensures { MatchOption result (Clean line.now) (λ i. FirstBad line.now (i + 1)) }
{
    line.iter().position(|b| !admits(*b))
}

// What of a form has been read.
#[derive(Clone, Copy, PartialEq, Eq)]
enum State {
    Start,
    Bracket,
    Head,
    Gap,
    Inner,
    Name,
    Sign,
    Minus,
    Digits,
    Between,
    End,
}

// The state after one byte more, if a form can go on with it.
fn advance(s: State, b: u8) -> Option<State>
    ensures { result ≡ step s b }
{
    match (s, b as char) {
        (State::Start, '(') => Some(State::Bracket),
        (State::Bracket, 'a'..='z') => Some(State::Head),
        (State::Head, 'a'..='z') => Some(State::Head),
        (State::Head, ' ') => Some(State::Gap),
        (State::Head, ')') => Some(State::End),
        (State::Gap, '(') => Some(State::Inner),
        (State::Inner, 'a'..='z') => Some(State::Name),
        (State::Name, 'a'..='z') => Some(State::Name),
        (State::Name, ' ') => Some(State::Sign),
        (State::Sign, '0'..='9') => Some(State::Digits),
        (State::Sign, '-') => Some(State::Minus),
        (State::Minus, '0'..='9') => Some(State::Digits),
        (State::Digits, '0'..='9') => Some(State::Digits),
        (State::Digits, ')') => Some(State::Between),
        (State::Between, ' ') => Some(State::Gap),
        (State::Between, ')') => Some(State::End),
        _ => None,
    }
}

// Whether the line is a form, or the first column that cannot go on.
fn scan(line: &[u8]) -> Result<(), usize>
    requires { length line.now ≤ 200 }
    ensures { MatchResult result (λ _. WellShaped line.now) (λ col. Stuck line.now col × Only line.now col) }
{
    let mut s = State::Start;
    for (i, b) in line.iter().enumerate() {
        let Some(next) = advance(s, *b) else {
            return Err(i + 1);
        };
        s = next;
    }
    if s == State::End {
        Ok(())
    } else {
        Err(line.len() + 1)
    }
}

// Whether a line of bytes that it may hold is a form; else the fault of its shape.
fn check_shape(line: &[u8]) -> Result<(), BracketFault>
    requires short { length line.now ≤ 200 }
    requires clean { Clean line.now }
    ensures { Brackets line.now result }
{
    scan(line).map_err(|column| BracketFault::Shape {
        column: column as u8,
    })
}

// Whether the line is a form; else the first of the three checks that it fails.
pub fn brackets(line: &[u8]) -> Result<(), BracketFault>
    ensures { Brackets line.now result }
{
    if line.len() > LONGEST {
        return Err(BracketFault::Long);
    }
    if let Some(i) = first_unadmitted(line) {
        let column = i as u8 + 1;
        return Err(BracketFault::Byte { column });
    }
    check_shape(line)
}

#[cfg(test)]
mod tests {
    use super::{BracketFault, brackets};

    #[test]
    fn forms(rt: HostRuntime) {
        assert_eq!(rt; brackets(b"(a)"), Ok(()));
        assert_eq!(rt; brackets(b"(close (day -01))"), Ok(()));
    }

    #[test]
    fn first_and_last_columns(rt: HostRuntime) {
        assert_eq!(rt; brackets(b""), Err(BracketFault::Shape { column: 1 }));
        assert_eq!(rt;
            brackets(b"(close (day -))"),
            Err(BracketFault::Shape { column: 14 })
        );
        assert_eq!(rt;
            brackets(b"(close (day 1)"),
            Err(BracketFault::Shape { column: 15 })
        );
        assert_eq!(rt; brackets(b"((A"), Err(BracketFault::Byte { column: 3 }));
        assert_eq!(rt;
            brackets(&[b'('; 200]),
            Err(BracketFault::Shape { column: 2 })
        );
        assert_eq!(rt; brackets(&[b'A'; 201]), Err(BracketFault::Long));
    }
}
