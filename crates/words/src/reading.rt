// From the bytes of a line to its form.
ghost use Rattle.std.specs.Prelude.{◌≡◌, ◌<◌, ◌≤◌, List, ◌∷◌, map, length, take, pos, if◌then◌else◌, Some, None, Ok, Err, MatchOption, MatchResult};
ghost use Rattle.std.specs.List.{All, before_first, position_from};
ghost use Rattle.brackets.specs.Bytes.{Digit};
ghost use Rattle.brackets.specs.Grammar.{Field};
ghost use Rattle.brackets.specs.Layer.{Brackets};
ghost use Rattle.words.specs.Forms.{kind_of, numbers_of};
ghost use Rattle.words.specs.Heads.{head_text, field_names, Unknown};
ghost use Rattle.words.specs.Layer.{Reads, Once};
ghost use Rattle.words.specs.Written.{ReadsBack, Answers};
ghost use Rattle.words.specs.Numbers.{decimal_value};
ghost use Rattle.words.specs.Walk.{NumberText, malformed, text_value, stops, FieldAt, Took, FieldsAt, HeadAt, one_named, all_named, field_value, first_malformed, one_read};
ghost use Rattle.words.specs.declared.faults.WordFault.TheVariants.{Head};

use crate::faults::WordFault;
use crate::form::Form;
use brackets::brackets;
use entries::entry::Entry;

// The value of at most 18 digits. A loop, since the closure of a `fold` would not know that the value so far is short.
fn magnitude(digits: &[u8]) -> i64
    requires few { length digits.now ≤ 18 }
    requires all { All Digit digits.now }
    ensures value { result ≡ pos (decimal_value digits.now) }
    ensures bound { decimal_value digits.now < 1000000000000000000 }
{
    let mut n: u64 = 0;
    for d in digits {
        n = n * 10 + (*d - b'0') as u64;
    }
    n as i64
}

// The number that the bytes write, unless it has a leading zero, is minus zero or has over 18 digits.
fn number(text: &[u8]) -> Option<i64>
    requires { NumberText text.now }
    ensures { result ≡ (if malformed text.now then None else Some (text_value text.now)) }
{
    match text {
        [b'-', b'0', ..] => None,
        [b'-', rest @ ..] if rest.len() <= 18 => Some(-magnitude(rest)),
        [b'0'] => Some(0),
        [b'0', ..] => None,
        [b'1'..=b'9', ..] if text.len() <= 18 => Some(magnitude(text)),
        _ => None,
    }
}

// A part of the line, with its column from 1. The rules tell words and numbers apart as two cases, though a field has one of each.
#[derive(Clone, Copy)]
enum Token<'a> {
    Word(&'a [u8], u8),
    Number(&'a [u8], u8),
}

// A field's name and number, and the place after its bracket.
#[derive(Clone, Copy)]
struct Tokens<'a> {
    name: Token<'a>,
    number: Token<'a>,
    next: usize,
}

// Where the first space or closing bracket stands, if there is one.
fn first_stop(rest: &[u8]) -> Option<usize>
    ensures { result ≡ position_from stops 0 rest.now }
{
    rest.iter().position(|b| matches!(*b as char, ' ' | ')'))
}

// What stands before the first space or closing bracket.
fn word(rest: &[u8]) -> &[u8]
    ensures { result.now ≡ before_first stops rest.now }
{
    let len = first_stop(rest).unwrap_or(rest.len());
    &rest[..len]
}

// The forms, by their heads.
#[derive(Clone, Copy)]
enum Kind {
    Book,
    Deposit,
    Withdraw,
    Register,
    Market,
    Close,
    Regulate,
    Meter,
    Evaluate,
    Show,
}

// The kind of form that has this head.
fn kind_of(head: &[u8]) -> Option<Kind>
    ensures { MatchOption result (Unknown head.now) (λ k. head.now ≡ head_text k) }
{
    match head {
        b"book" => Some(Kind::Book),
        b"deposit" => Some(Kind::Deposit),
        b"withdraw" => Some(Kind::Withdraw),
        b"register" => Some(Kind::Register),
        b"market" => Some(Kind::Market),
        b"close" => Some(Kind::Close),
        b"regulate" => Some(Kind::Regulate),
        b"meter" => Some(Kind::Meter),
        b"evaluate" => Some(Kind::Evaluate),
        b"show" => Some(Kind::Show),
        _ => None,
    }
}

// The names of the fields of a form, in order.
fn names(kind: Kind) -> &'static [&'static [u8]]
    ensures { map (λ x. x.now) result.now ≡ field_names kind }
{
    match kind {
        Kind::Book => &[b"parties", b"days", b"pricing", b"default", b"sharing"],
        Kind::Deposit | Kind::Withdraw => &[b"party", b"haler"],
        Kind::Register => &[b"day", b"from", b"to", b"seller", b"buyer", b"kwh"],
        Kind::Market => &[
            b"day", b"from", b"to", b"seller", b"buyer", b"kwh", b"price",
        ],
        Kind::Close => &[b"day"],
        Kind::Regulate => &[b"day", b"hour", b"party", b"kwh", b"price"],
        Kind::Meter => &[b"day", b"from", b"to", b"party", b"kwh"],
        Kind::Evaluate => &[b"day", b"stage"],
        Kind::Show => &[b"party"],
    }
}

// A line of so few bytes that a column of it fits a `u8`. Faults in it are told by their column, and take their kind where it is known (`fields`).
// A place goes with the line from call to call: a cursor of both would have to keep that a field begins there, which only its first call knows.
#[derive(Clone, Copy)]
struct Line<'a> {
    bytes: &'a [u8],
    ghost short: { length bytes.now ≤ 200 },
}

impl<'a> Line<'a> {
    // The field at `at`, where the space before it stands.
    fn field(self, at: usize) -> Tokens<'a>
        requires { (f : Field) × (fs : List Field) × FieldAt self.bytes.now at f fs }
        ensures { (f : Field) (fs : List Field) → FieldAt self.entry.bytes.now at f fs → Took at f result }
    {
        let name = word(&self.bytes[at + 2..]);
        let after = at + 3 + name.len();
        let number = word(&self.bytes[after..]);
        Tokens {
            name: Token::Word(name, (at + 3) as u8),
            number: Token::Number(number, (after + 1) as u8),
            next: after + number.len() + 1,
        }
    }

    // The place after the field at `at`, if it has this name; else the column of its bracket, or of the last bracket if there is none.
    fn named(self, at: usize, name: &[u8]) -> Result<usize, u8>
        requires { (fs : List Field) × FieldsAt self.bytes.now at fs }
        ensures { (fs : List Field) → FieldsAt self.entry.bytes.now at fs → result ≡ one_named name.now fs at }
    {
        if self.bytes[at] == b')' {
            return Err((at + 1) as u8);
        }
        let tokens = self.field(at);
        match tokens.name {
            Token::Word(text, column) => {
                if text == name {
                    Ok(tokens.next)
                } else {
                    Err(column - 1)
                }
            }
            Token::Number(_, column) => Err(column),
        }
    }

    // The place of the last bracket, if the fields from `start` on have these names; else the column of the first fault.
    fn all_named(self, start: usize, names: &[&[u8]]) -> Result<usize, u8>
        requires { (fs : List Field) × FieldsAt self.bytes.now start fs }
        ensures { (fs : List Field) → FieldsAt self.entry.bytes.now start fs → result ≡ all_named (map (λ x. x.now) names.now) fs start }
    {
        let mut at = start;
        for name in names {
            at = self.named(at, name)?;
        }
        if self.bytes[at] == b')' {
            Ok(at)
        } else {
            Err((at + 2) as u8)
        }
    }

    // The value of the number at `at` and the place after its field, or the number's column if it is malformed.
    fn value(self, at: usize) -> Result<(i64, usize), u8>
        requires { (f : Field) × (fs : List Field) × FieldAt self.bytes.now at f fs }
        ensures { (f : Field) (fs : List Field) → FieldAt self.entry.bytes.now at f fs → result ≡ one_read (f ∷ fs) at }
    {
        let tokens = self.field(at);
        match tokens.number {
            Token::Number(text, column) => Ok((number(text).ok_or(column)?, tokens.next)),
            Token::Word(_, column) => Err(column),
        }
    }

    // The values of the `count` fields from `start` on, or the column of the first number that is malformed.
    // They lie in an array and no list: the kind says how many there are, and `form_of` takes them by patterns, which a list has none of.
    fn values(self, start: usize, count: usize) -> Result<[i64; 8], u8>
        requires few { count ≤ 8 }
        requires some { (fs : List Field) × FieldsAt self.bytes.now start fs × (length fs ≡ count) }
        ensures { (fs : List Field) → FieldsAt self.entry.bytes.now start fs → length fs ≡ count → MatchResult result (λ vs. (first_malformed fs start ≡ None) × (take count vs ≡ map field_value fs)) (λ col. first_malformed fs start ≡ Some col) }
    {
        let mut vs = [0i64; 8];
        let mut at = start;
        for v in &mut vs[..count] {
            (*v, at) = self.value(at)?;
        }
        Ok(vs)
    }
}

// The form of this kind with these numbers.
fn form_of(kind: Kind, v: &[i64; 8]) -> Form
    ensures kind { kind_of result ≡ kind }
    ensures numbers { numbers_of result ≡ take (length (field_names kind)) v.now }
{
    match (kind, *v) {
        (Kind::Book, [parties, days, pricing, default, sharing, ..]) => Form::Book {
            parties,
            days,
            pricing,
            default,
            sharing,
        },
        (Kind::Deposit, [party, haler, ..]) => Form::Entry(Entry::Deposit { party, haler }),
        (Kind::Withdraw, [party, haler, ..]) => Form::Entry(Entry::Withdraw { party, haler }),
        (Kind::Register, [day, from, to, seller, buyer, kwh, ..]) => {
            Form::Entry(Entry::Register {
                day,
                from,
                to,
                seller,
                buyer,
                kwh,
            })
        }
        (Kind::Market, [day, from, to, seller, buyer, kwh, price, ..]) => {
            Form::Entry(Entry::Market {
                day,
                from,
                to,
                seller,
                buyer,
                kwh,
                price,
            })
        }
        (Kind::Close, [day, ..]) => Form::Entry(Entry::Close { day }),
        (Kind::Regulate, [day, hour, party, kwh, price, ..]) => Form::Entry(Entry::Regulate {
            day,
            hour,
            party,
            kwh,
            price,
        }),
        (Kind::Meter, [day, from, to, party, kwh, ..]) => Form::Entry(Entry::Meter {
            day,
            from,
            to,
            party,
            kwh,
        }),
        (Kind::Evaluate, [day, stage, ..]) => Form::Entry(Entry::Evaluate { day, stage }),
        (Kind::Show, [party, ..]) => Form::Show { party },
    }
}

// Whether the line has the shape of a form; a bracket fault is carried on whole.
fn shaped(line: &[u8]) -> Result<(), WordFault>
    ensures { MatchResult result (λ _. Brackets line.now (Ok tt)) (λ f. Answers line.now (Err f)) }
{
    brackets(line)?;
    Ok(())
}

// The kind of the form on the line and the place after its head, unless the head is unknown.
fn head(line: Line) -> Option<(Kind, usize)>
    requires { Brackets line.bytes.now (Ok tt) }
    ensures { MatchOption result (Answers line.entry.bytes.now (Err Head)) (λ p. HeadAt line.entry.bytes.now p.0 p.1) }
{
    let name = word(&line.bytes[1..]);
    let kind = kind_of(name)?;
    Some((kind, 1 + name.len()))
}

// The form of this kind whose fields begin at `start`.
fn fields(line: Line, kind: Kind, start: usize) -> Result<Form, WordFault>
    requires shaped { Brackets line.bytes.now (Ok tt) }
    requires headed { HeadAt line.bytes.now kind start }
    ensures { Answers line.entry.bytes.now result }
{
    let expected = names(kind);
    line.all_named(start, expected)
        .map_err(|column| WordFault::Field { column })?;
    let vs = line
        .values(start, expected.len())
        .map_err(|column| WordFault::Number { column })?;
    Ok(form_of(kind, &vs))
}

// The form on the line; else the first of the six checks that it fails, with its column.
pub fn read(line: &[u8]) -> Result<Form, WordFault>
    ensures reads { Reads line.now result }
    ensures once { Once line.now result }
    ensures back { ReadsBack line.now result }
{
    shaped(line)?;
    let line = Line { bytes: line };
    let (kind, start) = head(line).ok_or(WordFault::Head)?;
    fields(line, kind, start)
}
