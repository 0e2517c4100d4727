// A sentence for each refusal. docs/DESK.md has the same table, and tools/check-desk-doc holds the two to each other.
use drawing::Out;

// What a refusal means: below 10, and 21, of a plan, and the others of what runs by one.
// Stays: (d) a number for each sentence: these are the numbers of all that refuses, and no plainer form maps them to words.
fn sentence_of(refusal: u32) -> &'static [u8] {
    match refusal {
        1 => b"the plan has more than 4096 bytes",
        2 => b"the bytes end before the plan does",
        3 => b"a number is not in its shortest form, or is too large",
        4 => b"unknown version or code",
        5 => b"a value or a count is outside its rule",
        6 => {
            b"more than 256 activities and arms, activities more than 16 deep, or an expression more than 8 deep"
        }
        7 => b"the root's body is no start form: an order must start by a receive",
        8 => b"a scope stands in a fault part or an undo part",
        9 => b"bytes follow the plan",
        0 | 21 => b"two receives of one partner and operation take different numbers of values",
        10 => b"nothing is offered, and nothing is held",
        11 => b"nothing is offered, and something is held for want of room",
        12 => b"so many choices are not offered",
        13 => {
            b"partners, also the one to reply to, and operations are 0 to 63, and a message has 1 to 4 values"
        }
        14 => b"64 messages wait",
        15 => b"no message waits for a partner that the plan never receives on",
        16 => b"the plan has no such activity",
        17 => b"there is no plan, or the state breaks a limit",
        _ => b"too little room, or too much",
    }
}

pub fn put_sentence(out: &mut Out, refusal: u32) {
    out.put(sentence_of(refusal));
}

// An answer that is refused, told behind its numbers.
pub fn put_refused(out: &mut Out, refusal: u32) {
    out.put(b" - refused: ");
    put_sentence(out, refusal);
    out.put_byte(b'\n');
}

// A drop that is refused: its 15 is of the place.
pub fn put_undropped(out: &mut Out, refusal: u32) {
    if refusal == 15 {
        out.put(b" - refused: no message waits at this place\n");
    } else {
        put_refused(out, refusal);
    }
}

// What a refusal means where another command has it.
fn put_besides(out: &mut Out, refusal: u32) {
    if refusal == 15 {
        out.put(b"; of a drop: none waits at this place");
    }
}

fn put_row(out: &mut Out, refusal: u32) {
    out.put_aligned(u64::from(refusal));
    out.put(b"  ");
    put_sentence(out, refusal);
    put_besides(out, refusal);
    out.put_byte(b'\n');
}

// All of them, a line for each, and a blank line.
pub fn put_refusals(out: &mut Out) {
    for refusal in 1..19 {
        put_row(out, refusal);
    }
    put_row(out, 21);
    out.put_byte(b'\n');
}
