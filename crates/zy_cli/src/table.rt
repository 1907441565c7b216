//! The commands, as the help shows them: for each what it is for, what it reads and writes, and its arguments.

use crate::arguments::Argument;
use zy_diagnostics::CommandName;

/// A command, as the help shows it.
#[derive(Clone, Copy)]
pub struct Described {
    pub name: CommandName,
    /// What it is for.
    pub about: &'static str,
    /// What is below its options: what it reads and what it writes, and an example.
    pub below: &'static str,
    pub arguments: &'static [Argument],
}

/// The commands, in the order of the help.
pub const COMMANDS: [Described; 11] = [
    RUN, TRACE, ASM, DIS, CHECK, THREADS, DEBUG, SEARCH, FIND, END, ORDER,
];

/// The command of a word.
pub fn command_of(word: &str) -> Option<CommandName> {
    let described = COMMANDS
        .into_iter()
        .find(|described| described.name.word() == word)?;
    Some(described.name)
}

/// The help of the file that most commands read.
const FILE_HELP: &'static str = "The file that is read; without it standard input is";

/// What is below the options of a command: what it reads and what it writes, and an example.
macro_rules! below {
    ($input:literal, $output:literal, $example:literal) => {
        concat!(
            "Input:   ",
            $input,
            ", at most 4194304 bytes\nOutput:  ",
            $output,
            "; a fault is one line on standard error\n",
            "Status:  0 done, 1 the input is rejected, 2 the command line is wrong,\n",
            "         3 out of memory, 5 the input or the output failed\n",
            "Formats: docs/formats.md\n\nExample:\n  ",
            $example
        )
    };
}

const RUN: Described = Described {
    name: CommandName::Run,
    about: "Runs a scenario, and prints its listing",
    below: below!(
        "a scenario text, or with --image an image",
        "the listing, or with --json the steps,\n         each as an object of JSON",
        "zy_bench run examples/first_run.zephyr"
    ),
    arguments: &[
        Argument::Image,
        Argument::Json("Writes the steps as objects of JSON, and no listing"),
        Argument::File(FILE_HELP),
    ],
};

const TRACE: Described = Described {
    name: CommandName::Trace,
    about: "Runs a scenario, and prints what each step changes",
    below: below!(
        "a scenario text, or with --image an image",
        "the scenario, the lines of its opening state, each step with the lines that it\n         changed, and the end of the listing, or with --json the steps alone,\n         each as an object of JSON",
        "zy_bench trace examples/first_run.zephyr"
    ),
    arguments: &[
        Argument::Image,
        Argument::Json("Writes the steps as objects of JSON, with the lines that they changed"),
        Argument::File(FILE_HELP),
    ],
};

const ASM: Described = Described {
    name: CommandName::Asm,
    about: "Reads a scenario text, and writes its image",
    below: below!(
        "a scenario text",
        "its image",
        "zy_bench asm examples/first_run.zephyr > first_run.image"
    ),
    arguments: &[Argument::File(FILE_HELP)],
};

const DIS: Described = Described {
    name: CommandName::Dis,
    about: "Reads the image of a scenario, and prints its canonical text",
    below: below!(
        "the image of a scenario, as asm writes it",
        "its canonical text",
        "zy_bench dis first_run.image"
    ),
    arguments: &[Argument::File(FILE_HELP)],
};

const CHECK: Described = Described {
    name: CommandName::Check,
    about: "Reads a listing, and says whether it is right",
    below: concat!(
        "The scenario at its head, through its end line, is run. Where the input is its listing, byte\n",
        "for byte, the output is table, else not table L: L is the first line of the input that differs,\n",
        "and standard error shows it.\n",
        "\n",
        "Example:\n",
        "  zy_bench run examples/first_run.zephyr | zy_bench check\n",
        "\n",
        "Status: 0 table, 1 the scenario is rejected, 2 the command line is wrong,\n",
        "3 out of memory, 4 not table, 5 the input or the output failed.\n",
        "Formats: docs/formats.md"
    ),
    arguments: &[Argument::File(FILE_HELP)],
};

const THREADS: Described = Described {
    name: CommandName::Threads,
    about: "Runs a scenario by three threads, and prints its listing",
    below: below!(
        "a scenario text, or with --image an image",
        "the listing, with the choices in the order that the threads took",
        "zy_bench threads examples/migration.zephyr"
    ),
    arguments: &[Argument::Image, Argument::File(FILE_HELP)],
};

const DEBUG: Described = Described {
    name: CommandName::Debug,
    about: "Answers commands on the run of a scenario, one a line",
    below: concat!(
        "Input:   a scenario text through its end line, and below it commands, one a line;\n",
        "         at most 4194304 bytes. With FILE it begins with that, and standard input goes on\n",
        "Output:  the replies; a fault is one line on standard error\n",
        "Status:  0 done, 1 the scenario is rejected, 2 the command line is wrong,\n",
        "         3 out of memory, 5 the input or the output failed\n",
        "\n",
        "Commands: step N, back N, goto N, cont, rcont, break page P, break mode, break abort,\n",
        "watch K, delete I, page P, txn T, node N, links, where. docs/debugger.md describes them all.\n",
        "\n",
        "A command replays from the copy nearest below its target, or from the start. The two numbers\n",
        "change how long that takes and how much memory, and no reply.\n",
        "\n",
        "Example:\n",
        "  (echo 'break abort'; echo cont) | zy_bench debug examples/gone.zephyr"
    ),
    arguments: &[
        Argument::Every,
        Argument::Ring,
        Argument::File("The file with the scenario; the commands are then standard input"),
    ],
};

const SEARCH: Described = Described {
    name: CommandName::Search,
    about: "Looks for a schedule of a scenario after which a state shows something",
    below: concat!(
        "Input:   a scenario text, or with --image an image, at most 4194304 bytes; its choices are steps\n",
        "         already taken\n",
        "Output:  the scenario with a shortest list of further choices that leads there; nothing where\n",
        "         there is none. A text keeps its names and comments. Standard error has the number of\n",
        "         states reached; a fault is one line there\n",
        "Status:  0 found, 1 the input is rejected, 2 the command line is wrong, 3 out of memory,\n",
        "         4 no schedule of the considered choices shows it, 5 the input or the output failed,\n",
        "         6 it gave up\n",
        "\n",
        "GOAL:    facts joined by and, or, not and brackets; after them may come: then OUTCOME.\n",
        "         Facts of one word: differs (another database than that of the committed transactions, run\n",
        "         one by one in commit order), aborted (a transaction), own, killed, badkey, missing,\n",
        "         duplicate, frozen, nopage, gone (for this reason), committed (all transactions), over (no\n",
        "         migration goes on, and no transaction is active), stuck (a transaction is active, and\n",
        "         nothing comes of any considered choice), deadlock (transactions wait in a cycle).\n",
        "         Others: mode A sdual, page 3 at B, page 3 moving, txn 0 active, txn 0 aborted gone,\n",
        "         txn 1 committed before 0, link AB has pull, key 10 = 5, sum 1 to 8 != 800, reg 0 r2 > 60\n",
        "         and more: docs/search.md has them all.\n",
        "\n",
        "Examples:\n",
        "  zy_bench search --from 0 --for gone examples/gone.zephyr | zy_bench run\n",
        "  zy_bench search --from 0 --always 'commits = 0 or key 10 = key 30' examples/deadlock.zephyr\n",
        "  zy_bench search --for 'txn 0 active and page 3 moving then pulls' SCENARIO"
    ),
    arguments: &[
        Argument::Image,
        Argument::For,
        Argument::Always,
        Argument::From,
        Argument::Kill,
        Argument::Without,
        Argument::States,
        Argument::Threads,
        Argument::Canon,
        Argument::File(FILE_HELP),
    ],
};

const FIND: Described = Described {
    name: CommandName::Find,
    about: "Finds the states of a scenario's run that show something",
    below: concat!(
        "Input:   a scenario text, or with --image an image, at most 4194304 bytes\n",
        "Output:  the positions of its run at which the state meets GOAL, one a line: how many choices\n",
        "         are made there; a fault is one line on standard error\n",
        "Status:  0 there are some, 1 the input is rejected, 2 the command line is wrong,\n",
        "         3 out of memory, 4 there is none, 5 the input or the output failed\n",
        "\n",
        "GOAL:    as search has it: docs/search.md\n",
        "\n",
        "Example:\n",
        "  zy_bench find --for 'txn any active and page 0 moving' examples/gone.zephyr"
    ),
    arguments: &[
        Argument::Image,
        Argument::For,
        Argument::Always,
        Argument::File(FILE_HELP),
    ],
};

const END: Described = Described {
    name: CommandName::End,
    about: "Ends the migration of a scenario: writes it with choices behind its own that do so",
    below: concat!(
        "Input:   a scenario text, or with --image an image, at most 4194304 bytes\n",
        "Output:  the scenario; behind its choices are a kill of each active transaction, and then the steps\n",
        "         by which the nodes end the migration. A text keeps its names and comments. A fault is one\n",
        "         line on standard error\n",
        "Status:  0 done, 1 the input is rejected, 2 the command line is wrong, 3 out of memory,\n",
        "         5 the input or the output failed, 6 with those choices the scenario would have more\n",
        "         than 4096\n",
        "\n",
        "No commit is lost by it. Where no migration goes on and no transaction is active, the scenario\n",
        "goes out as it is: docs/migration.md\n",
        "\n",
        "Example:\n",
        "  zy_bench end examples/deadlock.zephyr | zy_bench run"
    ),
    arguments: &[Argument::Image, Argument::Canon, Argument::File(FILE_HELP)],
};

const ORDER: Described = Described {
    name: CommandName::Order,
    about: "Looks for an order of three logs that the step table allows",
    below: concat!(
        "Input:   a scenario text through its end line, and below it lines of the logs of C, A and B, each\n",
        "         log in order, else mixed in any way; at most 4194304 bytes. The scenario's choices\n",
        "         are steps already taken\n",
        "Output:  the scenario with the choices of an order of all lines behind its own, in which the step\n",
        "         table gives each line what it tells; nothing where there is none. A text keeps its names\n",
        "         and comments. Standard error has the number of states reached and, where there is none,\n",
        "         the furthest that an order comes, with the lines that do not fit there, or what one ends\n",
        "         with that does not end as --settled asks; a fault is one line there\n",
        "Status:  0 found, 1 the input is rejected, 2 the command line is wrong, 3 out of memory,\n",
        "         4 there is no order, 5 the input or the output failed, 6 it gave up, 7 each order ends\n",
        "         otherwise than --settled asks\n",
        "\n",
        "Lines:   CHOICE -> OUTCOME ! KIND, in the words of a listing, where ! KIND is the message that was\n",
        "         sent. CHOICE alone, or CHOICE -> ?, says nothing of what came. NODE run T -> did V tells\n",
        "         the value, too, that the instruction set, read or wrote, and rows K=V .. behind a take or a\n",
        "         push the rows of the page that it took or sent. NODE start, NODE begin T and NODE kill T tell\n",
        "         a step of the client that took place at NODE, and the client's log may be left out. Numbers of\n",
        "         an outcome may be left out from the end on: docs/order.md has the form. C ..., A ... and B ...\n",
        "         stand for steps of the actor that its log lacks there, or for none: at most N of --gap N. With\n",
        "         --json a line is an object in place of this: {\"actor\":\"A\",\"do\":\"run 0\",\"came\":\"did\",\"value\":7}\n",
        "\n",
        "Example:\n",
        "  cat SCENARIO client.log a.log b.log | zy_bench order | zy_bench run"
    ),
    arguments: &[
        Argument::Json("The lines of the logs are objects of JSON, as run --json writes them"),
        Argument::Gap,
        Argument::Settled,
        Argument::States,
        Argument::Canon,
        Argument::Furthest,
        Argument::File(FILE_HELP),
    ],
};
