// Ways of answering, and help.
use papers::Clerk;

// Numbers alone from now on.
pub(crate) fn plain(clerk: &mut Clerk) {
    clerk.out.put(b"plain\n");
    clerk.desk.spoken = false;
}

// Words too.
pub(crate) fn spoken(clerk: &mut Clerk) {
    clerk.out.put(b"spoken\n");
    clerk.desk.spoken = true;
}

pub(crate) fn help(clerk: &mut Clerk) {
    sayings::put_help(&mut clerk.out);
}

// Help on a command, on refusals or on faults.
pub(crate) fn help_on(clerk: &mut Clerk, word: &[u8], number: u64) {
    match word {
        b"refusals" => sayings::put_refusals(&mut clerk.out),
        b"faults" => sayings::put_faults(&mut clerk.out),
        _ if sayings::has_help(word) => sayings::put_help_on(&mut clerk.out, word),
        _ => clerk.error(number, b"no such command"),
    }
}
