// The help: a line for each command, and more on one.
use drawing::Out;

// A command: its word, its line in the list, and more on it.
#[derive(Clone, Copy, Drop)]
struct Topic {
    word: &'static [u8],
    line: &'static [u8],
    more: &'static [u8],
}

static TOPICS: [Topic; 27] = [
    Topic {
        word: b"post",
        line: b"post PARTNER OPERATION VALUE..  a message comes in; behind its values, \"reply PARTNER\" says whom to reply to",
        more: b"  Partners and operation by name or number, 1 to 4 values: post maker supported 7 1, or post shop ask 7 40 reply to_shop\n  It waits until an order takes it; \"waiting\" shows it, \"why\" says who could.",
    },
    Topic {
        word: b"go",
        line: b"go [N]                          take steps until nothing is offered, at most N (else 1000)",
        more: b"  Takes the first choice again and again, and tells each step.\n  The answer is \"go TAKEN REFUSAL\", then a line for each step.",
    },
    Topic {
        word: b"step",
        line: b"step CHOICE                     take one step of those that \"offers\" lists",
        more: b"  The answer is \"step 0 SLOT ACTIVITY PLACE END FAULT\", and what was done in words.",
    },
    Topic {
        word: b"run",
        line: b"run BUDGET CHOICE..             take steps by these choices",
        more: b"  The answer is \"run TAKEN REFUSAL\", then a line for each step.",
    },
    Topic {
        word: b"collect",
        line: b"collect [all]                   hand out the oldest message that leaves, or all of them",
        more: b"  What is sent to a partner that the plan never receives on leaves by collect.\n  The answer is \"collect 0 PARTNER OPERATION COUNT VALUE.. REPLY\": REPLY is the partner to reply to, 0 where none is named.",
    },
    Topic {
        word: b"drop",
        line: b"drop PLACE                      hand out any message that waits, and remove it",
        more: b"  PLACE is the number in front of the message in \"waiting\". For one that nobody takes any more: it makes room.",
    },
    Topic {
        word: b"why",
        line: b"why [SLOT]                      what each order waits for, and what hinders it",
        more: b"  Says which message nearly fits, what is held and by what, what would be undone, and which messages nobody can take.",
    },
    Topic {
        word: b"orders",
        line: b"orders                          the live orders",
        more: b"  A line for each: its slot, how it stands, its variables, what it remembers.",
    },
    Topic {
        word: b"order",
        line: b"order SLOT                      one order on the drawing of its plan",
        more: b"  \"order VARIABLE VALUE\" asks by the value of a variable, as order stepping 7.",
    },
    Topic {
        word: b"offers",
        line: b"offers                          all that is offered, in words",
        more: b"  The number in front of each is the choice that \"step\" takes.",
    },
    Topic {
        word: b"offer",
        line: b"offer                           all that is offered, in numbers",
        more: b"  SLOT:ACTIVITY:PLACE for each choice. \"offers\" tells the same in words.",
    },
    Topic {
        word: b"waiting",
        line: b"waiting                         the messages that wait",
        more: b"  A line for each, with its place, oldest first: PARTNER OPERATION COUNT VALUE.. REPLY, and words.",
    },
    Topic {
        word: b"tally",
        line: b"tally                           how many orders started, and how they ended",
        more: b"  STARTED WELL HANDLED FAILED LEFT.",
    },
    Topic {
        word: b"write",
        line: b"write                           the lines that follow, up to a blank one, are a plan as text",
        more: b"  The plan then runs, with a fresh state; where orders are live or messages wait it is \"write!\" that drops them.\n  A text of the very plan that runs only takes its names.",
    },
    Topic {
        word: b"draw",
        line: b"draw                            the plan as text",
        more: b"  What it prints can be given to \"write\".",
    },
    Topic {
        word: b"check",
        line: b"check                           what the plan does and was seldom meant: warnings",
        more: b"  The answer is \"check 0 COUNT\", then a line for each warning. The same lines follow write, plan, mend and open.",
    },
    Topic {
        word: b"names",
        line: b"names                           the names of the plan",
        more: b"  Those of a text that was written; a plan by its bytes has none.",
    },
    Topic {
        word: b"plan",
        line: b"plan HEX                        a plan in bytes",
        more: b"  Where orders are live or messages wait it is \"plan!\" that drops them. A refused plan changes nothing.",
    },
    Topic {
        word: b"mend",
        line: b"mend HEX                        a plan in bytes whose numbers may be padded",
        more: b"  Where orders are live or messages wait it is \"mend!\" that drops them.",
    },
    Topic {
        word: b"show",
        line: b"show K                          the bytes of activity K",
        more: b"  K is the number that stands in front of it in the drawing.",
    },
    Topic {
        word: b"save",
        line: b"save FILE                       keep the state in a file",
        more: b"  What the file held stays as FILE.old. A name with blanks stands in quotes: save \"my orders\".\n  \"save!\" replaces what \"save\" would not.",
    },
    Topic {
        word: b"open",
        line: b"open FILE                       go on with the state in a file",
        more: b"  Where orders are live or messages wait it is \"open!\" that drops them.",
    },
    Topic {
        word: b"page",
        line: b"page FILE                       all of it as a page for a browser: orders, messages, drawings",
        more: b"  One HTML file, made anew each time, that needs no server. It replaces a page only; \"page!\" any file, which stays as FILE.old.",
    },
    Topic {
        word: b"plain",
        line: b"plain                           answer by numbers alone, with no brakes: for programs",
        more: b"  \"spoken\" answers with words again.",
    },
    Topic {
        word: b"spoken",
        line: b"spoken                          answer with words behind the numbers",
        more: b"  So the desk begins, but for the word plain behind its name.",
    },
    Topic {
        word: b"quit",
        line: b"quit                            end",
        more: b"  What is not saved is told; \"quit!\" ends all the same.",
    },
    Topic {
        word: b"help",
        line: b"help [WORD]                     this list, or more on one command; \"help refusals\" and \"help faults\" for what their numbers mean",
        more: b"  Refusals are the numbers behind a command that is not done: post 14.",
    },
];

// All commands, a line for each, and a blank line.
pub fn put_help(out: &mut Out) {
    for topic in &TOPICS {
        out.put(topic.line);
        out.put_byte(b'\n');
    }
    out.put_byte(b'\n');
}

// The command that a word is, where it is one.
fn topic_of(word: &[u8]) -> Option<&'static Topic> {
    TOPICS.iter().find(|topic| topic.word == word)
}

// More on one command, and a blank line. Nothing where the word is none.
pub fn put_help_on(out: &mut Out, word: &[u8]) {
    if let Some(topic) = topic_of(word) {
        out.put(topic.line);
        out.put_byte(b'\n');
        out.put(topic.more);
        out.put(b"\n\n");
    }
}

// Whether there is help on a word.
pub fn has_help(word: &[u8]) -> bool {
    topic_of(word).is_some()
}
