// Reads what an activity or an arm says of itself, as the drawing has it.
ghost use Rattle.std.specs.Prelude.{◌≤◌, IfOk};

use super::Reading;
use super::levels::Kind;
use plan::kind;
use spelling::{
    Mistake, Reason, What, after_correlation, after_mark, after_word, after_words, decimal,
    expression, is_long, is_name, is_over, is_scope_named, more, word_at,
};

// What an activity is, and the next row.
#[derive(Clone, Copy)]
pub(crate) struct Own {
    pub kind: Kind,
    pub next: usize,
}

// What is wrong with a message, where that is another reason of this message.
fn told(mistake: Mistake, reason: Reason) -> Mistake {
    if mistake.reason == Reason::Message {
        reason.at(mistake.place)
    } else {
        mistake
    }
}

// The place after `with reply to`.
fn after_reply(s: &[u8], at: usize) -> Option<usize> {
    let with = after_word(s, at, b"with")?;
    after_words(s, with, b"reply", b"to")
}

// The line does not end after a tuple: a reply is said otherwise, or where none is, and so is anything else.
fn unended(s: &[u8], at: usize) -> Mistake {
    let reason = if after_word(s, at, b"with").is_some() {
        Reason::Reply
    } else {
        Reason::Message
    };
    reason.at(at)
}

// How many variables a tuple has, up to 100: one more than it has commas.
fn members(s: &[u8], at: usize) -> u32 {
    let mut n: u32 = 1;
    // From the place on, and not `skip`, which goes over all before it.
    let rest = s.get(at..).unwrap_or(&[]);
    for b in rest.iter().take_while(|b| !matches!(**b, b'\n' | b'#')) {
        if *b == b',' && n < 100 {
            n += 1;
        }
    }
    n
}

impl Reading<'_> {
    // One number more in the row of the activity.
    fn add(&mut self, value: u32) {
        self.table.add(self.row, value);
    }

    // An activity that has its row alone.
    fn own(&self, kind: Kind) -> Own {
        Own {
            kind,
            next: more(self.row),
        }
    }

    // A partner or an operation, by its number or its name; the place after it.
    fn numbered(&mut self, at: usize, what: What) -> Result<usize, Mistake> {
        let s = self.bytes;
        let word = word_at(s, at);
        if word.is_empty() {
            return Err(Reason::Message.at(word.from));
        }
        let number = if is_name(s, word.from) {
            self.text()
                .declared(what, word)
                .ok_or(Reason::Name.at(word.from))?
        } else {
            decimal(word.of(s)).ok_or(Reason::Number.at(word.from))?
        };
        self.add(number);
        Ok(word.to)
    }

    // A variable of a tuple, with its mark where it has one; the place after it.
    fn member(&mut self, at: usize) -> Result<usize, Mistake>
        ensures { IfOk result (λ to. at ≤ to) }
    {
        let s = self.bytes;
        let text = self.text();
        let word = word_at(s, at);
        if word.is_empty() {
            return Err(Reason::Message.at(word.from));
        }
        let k = text.variable(word).ok_or(Reason::Name.at(word.from))?;
        self.add(k);
        match after_correlation(s, word.to) {
            None => Ok(word.to),
            Some(to) if text.is_correlation(k) => Ok(to),
            Some(_) => Err(Reason::Correlation.at(word.from)),
        }
    }

    // The variables of a tuple, as far as commas lead; the place after it.
    fn tuple(&mut self, at: usize) -> Result<usize, Mistake> {
        let s = self.bytes;
        self.add(members(s, at));
        let mut p = self.member(at)?;
        while let Some(next) = after_mark(s, p, b',') {
            p = self.member(next)?;
        }
        Ok(p)
    }

    // `, operation O: V, V`, after whom the message is for or from.
    fn about(&mut self, at: usize) -> Result<usize, Mistake> {
        let s = self.bytes;
        let a = after_mark(s, at, b',').ok_or(Reason::Message.at(at))?;
        let b = after_word(s, a, b"operation").ok_or(Reason::Message.at(a))?;
        let c = self.numbered(b, What::Operation)?;
        let d = after_mark(s, c, b':').ok_or(Reason::Message.at(c))?;
        self.tuple(d)
    }

    // `partner P, operation O: V, V`.
    fn exchange(&mut self, at: usize) -> Result<usize, Mistake> {
        let a = after_word(self.bytes, at, b"partner").ok_or(Reason::Message.at(at))?;
        let b = self.numbered(a, What::Partner)?;
        self.about(b)
    }

    // `partner in V, operation O: V, V`, of a send to the partner that V holds.
    fn held_exchange(&mut self, at: usize) -> Result<usize, Mistake> {
        let s = self.bytes;
        let a = after_word(s, at, b"partner").ok_or(Reason::Message.at(at))?;
        let b = after_word(s, a, b"in").ok_or(Reason::Message.at(a))?;
        let c = self.member(b)?;
        self.about(c)
    }

    // A send to a partner, or an arm's message, from its partner on.
    fn message(&mut self, at: usize, kind: Kind) -> Result<Own, Mistake> {
        let end = self.exchange(at)?;
        if is_over(self.bytes, end) {
            Ok(self.own(kind))
        } else {
            Err(unended(self.bytes, end))
        }
    }

    fn send(&mut self, at: usize) -> Result<Own, Mistake> {
        self.add(kind::SEND);
        self.message(at, Kind::Leaf)
    }

    fn receive(&mut self, at: usize) -> Result<Own, Mistake> {
        self.add(kind::RECEIVE);
        let end = self.exchange(at)?;
        if is_over(self.bytes, end) {
            Ok(self.own(Kind::Leaf))
        } else {
            self.asking(end)
        }
    }

    // What a receive stores the reply partner in, where its line goes on: `with reply to into V`.
    fn asking(&mut self, at: usize) -> Result<Own, Mistake> {
        let s = self.bytes;
        let a = after_reply(s, at).ok_or(unended(s, at))?;
        let b = after_word(s, a, b"into").ok_or(Reason::Reply.at(a))?;
        let end = self.member(b).map_err(|m| told(m, Reason::Reply))?;
        self.table.put(self.row, 1, kind::ASKING_RECEIVE);
        self.replied(end)
    }

    // A send to the partner that a variable holds, from behind `the` on; where it says no partner to reply to, that is 0.
    fn held_send(&mut self, at: usize) -> Result<Own, Mistake> {
        self.add(kind::HELD_SEND);
        let end = self.held_exchange(at).map_err(|m| told(m, Reason::Held))?;
        if is_over(self.bytes, end) {
            self.add(0);
            Ok(self.own(Kind::Leaf))
        } else {
            self.replying(end)
        }
    }

    // Whom a send asks to reply to: `with reply to partner P`.
    fn replying(&mut self, at: usize) -> Result<Own, Mistake> {
        let s = self.bytes;
        let a = after_reply(s, at).ok_or(told(unended(s, at), Reason::Held))?;
        let b = after_word(s, a, b"partner").ok_or(Reason::Reply.at(a))?;
        let end = self
            .numbered(b, What::Partner)
            .map_err(|m| told(m, Reason::Reply))?;
        self.replied(end)
    }

    // An activity whose line has to end here, after a reply.
    fn replied(&self, at: usize) -> Result<Own, Mistake> {
        if is_over(self.bytes, at) {
            Ok(self.own(Kind::Leaf))
        } else {
            Err(Reason::Reply.at(at))
        }
    }

    // An activity with an expression from `at` on.
    fn with_expression(&mut self, at: usize, kind: Kind) -> Result<Own, Mistake> {
        let text = self.text();
        let first = more(self.row);
        let (end, next) = expression(text, at, &mut self.table, first)?;
        if is_over(self.bytes, end) {
            Ok(Own { kind, next })
        } else {
            Err(Reason::Expression.at(end))
        }
    }

    fn set(&mut self, at: usize) -> Result<Own, Mistake> {
        let s = self.bytes;
        let word = word_at(s, at);
        let k = self
            .text()
            .variable(word)
            .ok_or(Reason::Name.at(word.from))?;
        let to = after_word(s, word.to, b"to").ok_or(Reason::Set.at(word.to))?;
        self.add(kind::SET);
        self.add(k);
        self.with_expression(to, Kind::Leaf)
    }

    // An activity that is its code and an expression.
    fn judged(&mut self, at: usize, code: u32, kind: Kind) -> Result<Own, Mistake> {
        self.add(code);
        self.with_expression(at, kind)
    }

    // An activity that is its word alone, or has a list, whose count is filled in as it is read.
    fn plain(&mut self, at: usize, code: u32, kind: Kind) -> Result<Own, Mistake> {
        if !is_over(self.bytes, at) {
            return Err(Reason::Behind.at(at));
        }
        self.add(code);
        if matches!(kind, Kind::List | Kind::Pick) {
            self.add(0);
        }
        Ok(self.own(kind))
    }

    fn arm(&mut self, at: usize) -> Result<Own, Mistake> {
        let s = self.bytes;
        let a = after_mark(s, at, b':').ok_or(Reason::Arm.at(at))?;
        let b = after_words(s, a, b"receive", b"from").ok_or(Reason::Arm.at(a))?;
        self.message(b, Kind::Arm)
    }

    // A scope, and the name that it may have: no other scope has it.
    fn scope(&mut self, at: usize) -> Result<Own, Mistake> {
        let s = self.bytes;
        if is_over(s, at) {
            return self.plain(at, kind::OPEN_SCOPE, Kind::Scope);
        }
        let word = word_at(s, at);
        if !is_name(s, word.from) {
            return Err(Reason::Behind.at(word.from));
        }
        if is_long(word) {
            return Err(Reason::Long.at(word.from));
        }
        if is_scope_named(s, self.text().stop, word) {
            return Err(Reason::Declared.at(word.from));
        }
        self.plain(word.to, kind::OPEN_SCOPE, Kind::Scope)
    }

    // A raise, plain or with its number or name from `at` on.
    fn raised(&mut self, at: usize) -> Result<Own, Mistake> {
        let s = self.bytes;
        if is_over(s, at) {
            return self.plain(at, kind::RAISE, Kind::Leaf);
        }
        let word = word_at(s, at);
        let number = self.text().fault(word)?;
        if !is_over(s, word.to) {
            return Err(Reason::Behind.at(word.to));
        }
        self.add(kind::NUMBERED_RAISE);
        self.add(number);
        Ok(self.own(Kind::Leaf))
    }

    // The activity at `at`, as the next row.
    pub(crate) fn activity(&mut self, at: usize) -> Result<Own, Mistake> {
        self.table.begin(self.row);
        let s = self.bytes;
        let none = Reason::Activity.at(at);
        let word = word_at(s, at);
        let p = word.to;
        match word.of(s) {
            b"send" => {
                let to = after_word(s, p, b"to").ok_or(none)?;
                match after_word(s, to, b"the") {
                    Some(held) => self.held_send(held),
                    None => self.send(to),
                }
            }
            b"receive" => self.receive(after_word(s, p, b"from").ok_or(none)?),
            b"set" => self.set(p),
            b"choose" => {
                let by = after_word(s, p, b"by").ok_or(none)?;
                self.judged(by, kind::CHOOSE, Kind::Choose)
            }
            b"repeat" => {
                let by = after_word(s, p, b"while").ok_or(none)?;
                self.judged(by, kind::REPEAT, Kind::Repeat)
            }
            b"arm" => self.arm(p),
            b"empty" => self.plain(p, kind::EMPTY, Kind::Leaf),
            b"raise" => self.raised(p),
            b"leave" => self.plain(p, kind::LEAVE, Kind::Leaf),
            b"sequence" => self.plain(p, kind::SEQUENCE, Kind::List),
            b"flow" => self.plain(p, kind::FLOW, Kind::List),
            b"pick" => self.plain(p, kind::PICK, Kind::Pick),
            b"scope" => self.scope(p),
            _ => Err(none),
        }
    }
}
