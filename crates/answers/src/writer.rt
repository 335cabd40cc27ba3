// The text of an answer, written into a lent buffer part after part.
ghost use Rattle.std.specs.Prelude.{◌+◌, ◌*◌, ◌≤◌, ◌++◌, length, take, map, min, Decides};
ghost use Rattle.std.specs.List.{All};
ghost use Rattle.answers.specs.Texts.{field_text, form_text, pay_text, pay_lines, operator_text, answer_text};
ghost use Rattle.answers.specs.Writing.{Adds, Room, Answerable, Writes, Brief, named};

use crate::Answer;
use itoa::Buffer;

// Every answer fits this many bytes, and no smaller buffer is written to.
pub const ANSWER_BYTES: usize = 4096;

// The last line that is answered.
const LAST_LINE: i64 = 999_999_999;

// A buffer that is reached only by adding text after that before. It is no `fmt::Write`: no clause says that `write!` gives `Ok`
// where there is room, and a text that fits may not fail.
#[derive(Drop)]
struct Writer<'a> {
    buffer: &'a mut [u8],
    len: usize,
}

impl<'a> Writer<'a> {
    fn add(&mut self, text: &str)
        requires { Room self.old (length text.now) }
        ensures { Adds text.now self.old self.new }
    {
        let end = self.len + text.len();
        self.buffer[self.len..end].copy_from_slice(text.as_bytes());
        self.len = end;
    }

    // ` (name number)`: at most 10 bytes of a name, 20 of a number and 4 around them, so under 40.
    fn field(&mut self, field: &(&str, i64))
        requires room { Room self.old 40 }
        requires brief { Brief field.now }
        ensures adds { Adds (field_text field.now.0.now field.now.1) self.old self.new }
        ensures short { self.new.len ≤ self.old.len + 40 }
    {
        let (name, number) = *field;
        self.add(" (");
        self.add(name);
        self.add(" ");
        self.add(Buffer::new().format(number));
        self.add(")");
    }

    // `(head (name number) ..)` and the end of the line: at most 10 bytes of a head and 3 around it.
    fn form(&mut self, head: &str, fields: &[(&str, i64)])
        requires room { Room self.old (15 + 40 * length fields.now) }
        requires headed { length head.now ≤ 10 }
        requires brief { All Brief fields.now }
        ensures adds { Adds (form_text head.now (map named fields.now)) self.old self.new }
        ensures short { self.new.len ≤ self.old.len + 15 + 40 * length fields.now }
    {
        self.add("(");
        self.add(head);
        for field in fields {
            self.field(field);
        }
        self.add(")\n");
    }

    fn payment(&mut self, line: i64, party: u8, haler: i64)
        requires { Room self.old 135 }
        ensures adds { Adds (pay_text line party haler) self.old self.new }
        ensures short { self.new.len ≤ self.old.len + 135 }
    {
        self.form(
            "pay",
            &[
                ("line", line),
                ("party", i64::from(party)),
                ("haler", haler),
            ],
        );
    }

    // A line for each of the first `parties` parties, of those that there are, and the operator's.
    fn paid(&mut self, line: i64, parties: usize, payments: &[i64; 20], operator: i64)
        requires { Room self.old 4096 }
        ensures adds { Adds (pay_lines line 1 (take (min parties 20) payments.now) ++ operator_text line operator) self.old self.new }
        ensures short { self.new.len ≤ self.old.len + 4096 }
    {
        let paid = &payments[..parties.min(20)];
        for (i, haler) in paid.iter().enumerate() {
            self.payment(line, i as u8 + 1, *haler);
        }
        self.form("operator", &[("line", line), ("haler", operator)]);
    }

    fn answer(&mut self, line: i64, answer: &Answer)
        requires { Room self.old 4096 }
        ensures adds { Adds (answer_text line answer.now) self.old self.new }
        ensures short { self.new.len ≤ self.old.len + 4096 }
    {
        match answer {
            Answer::Accepted => self.form("ok", &[("line", line)]),
            Answer::Refused {
                layer,
                number,
                place,
            } => self.form(
                "no",
                &[
                    ("line", line),
                    ("layer", i64::from(*layer)),
                    ("number", i64::from(*number)),
                    ("place", *place),
                ],
            ),
            Answer::Paid {
                parties,
                payments,
                operator,
            } => self.paid(line, *parties, payments, *operator),
            Answer::Statement {
                party,
                balance,
                need,
            } => self.form(
                "show",
                &[
                    ("line", line),
                    ("party", *party),
                    ("balance", *balance),
                    ("need", *need),
                ],
            ),
        }
    }
}

// Whether a line of this number is answered into a buffer of so many bytes.
pub fn answerable(bytes: usize, line: i64) -> bool
    ensures { Decides result (Answerable bytes line) }
{
    bytes >= ANSWER_BYTES && (1..=LAST_LINE).contains(&line)
}

// The answer's text at the buffer's start, and its length; None, with nothing written, where the buffer is under 4,096 bytes or
// the line's number is outside 1 to 999,999,999.
pub fn write(out: &mut [u8], line: i64, answer: &Answer) -> Option<usize>
    ensures { Writes out.old line answer.now result out.new }
{
    if !answerable(out.len(), line) {
        return None;
    }
    let mut writer = Writer {
        buffer: out,
        len: 0,
    };
    writer.answer(line, answer);
    Some(writer.len)
}
