// Steps and messages that go out, each told in words behind its numbers: step, run, go, collect and drop.
use drawing::Out;
use machine::{Collected, Message, State, Step, Tally};
use papers::{Clerk, Said};
use plan::table::LENGTH;
use run::Ran;
use sayings::put_refused;

// A step that was taken in this state.
fn put_taken(out: &mut Out, names: &[u8; 16896], state: State, x: Step) {
    let mut table = [0u32; LENGTH];
    let mut flags = [0u8; 16];
    let order = state.orders.get(x.slot).copied();
    let message = state.messages.get(x.place).copied();
    if let Ok(plan) = machine::limits::planned(state, &mut table, &mut flags) {
        telling::put_step(
            out,
            names,
            &table,
            &flags,
            plan.activities,
            order.unwrap_or(machine::made::no_order()),
            message.unwrap_or(machine::made::no_message()),
            x,
        );
    }
}

fn put_told(out: &mut Out, names: &[u8; 16896], state: State, x: Step) {
    out.go_on();
    if x.refusal != 0 {
        put_refused(out, x.refusal);
    } else {
        out.put(b" - ");
        put_taken(out, names, state, x);
        out.put_byte(b'\n');
    }
}

// Takes a step.
pub(crate) fn step(clerk: &mut Clerk, choice: u32) {
    let before = clerk.desk.state;
    let r = step::take_step(before, choice as usize, clerk.desk.tally);
    let x = r.answer;
    console::put_step(&mut clerk.out, x);
    put_told(&mut clerk.out, &clerk.desk.names, before, x);
    if x.refusal == 0 {
        clerk.desk.change(r.state, r.tally);
    } else {
        clerk.desk.answer(x.refusal);
    }
}

// How many steps were taken, and why no more.
fn put_count(out: &mut Out, r: Ran) {
    out.go_on();
    out.put(b" - ");
    out.put_number(r.taken as u64);
    if r.taken == 1 {
        out.put(b" step taken");
    } else {
        out.put(b" steps taken");
    }
    if r.refusal != 0 {
        out.put(b"; then ");
        sayings::put_sentence(out, r.refusal);
    }
    out.put_byte(b'\n');
}

// One step more of a run, told.
fn put_turn(out: &mut Out, names: &[u8; 16896], state: State, x: Step) {
    out.put(b"  ");
    put_taken(out, names, state, x);
    out.put_byte(b'\n');
}

// The steps of a run, which were taken by these choices, once more, each told.
fn put_turns(out: &mut Out, names: &[u8; 16896], state: State, tally: Tally, choices: &[usize]) {
    let mut s = state;
    let mut t = tally;
    for choice in choices {
        let r = step::take_step(s, *choice, t);
        put_turn(out, names, s, r.answer);
        s = r.state;
        t = r.tally;
    }
    out.put_byte(b'\n');
}

// Takes steps by these choices, and tells them.
fn ran(clerk: &mut Clerk, word: &[u8], choices: &[usize], budget: u32) {
    let before = clerk.desk.state;
    let counted = clerk.desk.tally;
    let mut left = budget as usize;
    let r = run::run(before, choices, &mut left, counted);
    clerk
        .out
        .put_pair(word, r.taken as u64, u64::from(r.refusal));
    if clerk.desk.spoken {
        let taken = choices.get(..r.taken).unwrap_or(choices);
        put_count(&mut clerk.out, r);
        put_turns(&mut clerk.out, &clerk.desk.names, before, counted, taken);
    }
    if r.taken == 0 {
        clerk.desk.answer(r.refusal);
    } else {
        clerk.desk.change(r.state, r.tally);
    }
}

// Takes steps by a budget and up to 1,000 choices.
pub(crate) fn run(clerk: &mut Clerk, line: &[u8], from: usize, number: u64) {
    match console::running(line, from) {
        Ok((budget, choices)) => ran(clerk, b"run", choices.as_slice(), budget),
        Err(why) => console::wrong(clerk, number, why),
    }
}

// Takes the first choice again and again, up to 1,000 times.
pub(crate) fn go(clerk: &mut Clerk, limit: u32) {
    ran(clerk, b"go", &[0usize; 1000], limit);
}

// A message that goes out, told.
fn put_out(out: &mut Out, names: &[u8; 16896], state: State, m: Message) {
    let mut table = [0u32; LENGTH];
    let mut flags = [0u8; 16];
    if let Ok(plan) = machine::limits::planned(state, &mut table, &mut flags) {
        telling::put_letter(out, names, &table, plan.activities, m);
    }
}

// Why none is handed out; a drop has its own sentence.
fn put_kept(out: &mut Out, refusal: u32, dropped: bool) {
    if dropped {
        sayings::put_undropped(out, refusal);
    } else {
        put_refused(out, refusal);
    }
}

fn put_handed(
    out: &mut Out,
    names: &[u8; 16896],
    state: State,
    refusal: u32,
    m: Message,
    dropped: bool,
) {
    out.go_on();
    if refusal != 0 {
        put_kept(out, refusal, dropped);
    } else {
        out.put(b" - ");
        put_out(out, names, state, m);
        out.put_byte(b'\n');
    }
}

// A message that a command with this word handed out, or why it did not.
fn handed(clerk: &mut Clerk, word: &[u8], c: Collected, dropped: bool) {
    console::put_collected(&mut clerk.out, word, c);
    if clerk.desk.spoken {
        put_handed(
            &mut clerk.out,
            &clerk.desk.names,
            clerk.desk.state,
            c.refusal,
            c.message,
            dropped,
        );
    }
    if c.refusal == 0 {
        let tally = clerk.desk.tally;
        clerk.desk.change(c.state, tally);
    } else {
        clerk.desk.answer(c.refusal);
    }
}

// Hands out the oldest message that leaves.
pub(crate) fn collect(clerk: &mut Clerk) {
    let c = mail::collect(clerk.desk.state);
    handed(clerk, b"collect", c, false);
}

// Hands out the message at a place, whoever it is for.
pub(crate) fn drop_at(clerk: &mut Clerk, place: u32) {
    let c = mail::drop_at(clerk.desk.state, place as usize);
    handed(clerk, b"drop", c, true);
}

// Hands out all that go out, up to the refusal that says that there are no more.
pub(crate) fn collect_all(clerk: &mut Clerk) {
    for _ in 0..65 {
        collect(clerk);
        if clerk.desk.said != Said::Well {
            clerk.desk.said = Said::Well;
            return;
        }
    }
}
