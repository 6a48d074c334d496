//! The table of the command line: each command with its options, and what help says of them.

use crate::help::{
    ATTACK_HELP, CHECK_HELP, DECODE_HELP, ENCODE_HELP, EXPAND_HELP, EXPLAIN_HELP, FACTS_HELP,
    GRAPH_HELP, LIVE_HELP, MAKE_HELP, MEND_HELP, MIG_HELP, PROMISES_HELP, REPLAY_HELP, SLOTS_HELP,
    VERIFY_HELP,
};

/// How an option is given.
#[derive(Clone, Copy)]
pub(crate) enum Kind {
    /// With a value, and it has to be given.
    Needed,
    /// With a value, and it need not be given.
    Free,
    /// With a number that `clap` reads, and it need not be given.
    Number,
    /// Without a value.
    Flag,
    /// It is no option, but all words without an option's name, as many as there are.
    Words,
    /// The same, if one at least has to be given.
    NeededWords,
}

/// An option: its name, how it is given, the word for its value in help, and its sentence of help.
pub(crate) type Row = (&'static str, Kind, &'static str, &'static str);

/// A command: its name, its sentence of help, what is printed below its options, and these.
pub(crate) type Entry = (&'static str, &'static str, &'static str, &'static [Row]);

/// A row, by its kind, its name, the word for its value, and its sentence.
macro_rules! row {
    ($kind:ident $name:literal $value:literal $help:literal) => {
        ($name, Kind::$kind, $value, $help)
    };
}

const WIRING: Row = row! { Needed "wiring" "FILE" "Tasks, ports and their first rights" };

const POLICY: Row = row! { Needed "policy" "FILE" "The forbidden holdings" };

const CERT: Row = row! { Needed "cert" "FILE" "The certificate: who may come to hold what" };

const CERT_IF_ANY: Row = row! {
    Free "cert" "FILE" "The certificate: the least one where it is not given"
};

const SCRIPT: Row = row! { Needed "script" "FILE" "The calls, one a line" };

const WAIVE: Row = row! {
    Flag "waive" "" "Lets what the policy waives pass, as if it were not forbidden"
};

const FORMAT: Row = row! {
    Free "format" "FORMAT" "How the answer is printed: text, or json for one JSON object"
};

const REPORT_FORMAT: Row = row! {
    Free "format" "FORMAT"
    "How the answer is printed: text, json for one JSON object, or sarif for a code host"
};

const VERBOSE: Row = row! {
    Flag "verbose" "" "Shows where a fault is, and what may help to mend it"
};

const DEFS: Row = row! { Words "defs" "DEFS" "The MIG files of the interfaces" };

/// The commands, as help lists them.
pub(crate) const COMMANDS: [Entry; 16] = [
    (
        "verify",
        "Says whether a forbidden right can be obtained, and how",
        VERIFY_HELP,
        &[
            WIRING,
            POLICY,
            row! { Flag "tree" "" "Prints the steps from the fact down" },
            row! { Flag "brief" "" "Prints the broken lines without their steps" },
            row! { Free "line" "N" "Only this line of the policy" },
            WAIVE,
            REPORT_FORMAT,
            row! {
                Flag "verbose" ""
                "Prints the text of each broken line too, and shows where a fault is"
            },
            DEFS,
        ],
    ),
    (
        "mend",
        "Looks for changes of a wiring after which no forbidden right can be obtained",
        MEND_HELP,
        &[
            WIRING,
            POLICY,
            row! {
                Free "line" "N" "Only this line of the policy: other lines may stay broken"
            },
            WAIVE,
            row! {
                Free "most" "N" "How many mends are printed, 1 to 1000000: 10 if it is not given"
            },
            FORMAT,
            VERBOSE,
            DEFS,
        ],
    ),
    (
        "attack",
        "Looks for calls that lead to a forbidden right, and runs them on the machine",
        ATTACK_HELP,
        &[
            WIRING,
            POLICY,
            row! {
                Free "line" "N" "Only this line of the policy: its calls are printed as a script"
            },
            WAIVE,
            row! {
                Free "most" "N"
                "How many chains are played for a line, 1 to 1000000: 30 if it is not given"
            },
            FORMAT,
            VERBOSE,
            DEFS,
        ],
    ),
    (
        "check",
        "Says whether a certificate shows that no forbidden right can be obtained",
        CHECK_HELP,
        &[
            WIRING,
            POLICY,
            CERT,
            WAIVE,
            FORMAT,
            row! {
                Flag "verbose" ""
                "Says what to do with a certificate of another wiring, and shows where a fault is"
            },
            DEFS,
        ],
    ),
    (
        "make",
        "Makes the least certificate of a wiring",
        MAKE_HELP,
        &[
            WIRING,
            row! { Needed "out" "FILE" "The certificate that is written" },
            row! {
                Number "workers" "N" "How many threads make it, 1 to 64: 4 where it is not given"
            },
            VERBOSE,
            DEFS,
        ],
    ),
    (
        "explain",
        "Shows how a fact comes to be in the least certificate of a wiring",
        EXPLAIN_HELP,
        &[
            WIRING,
            row! { Needed "fact" "FACT" "The fact, as it is printed in a NO" },
            row! { Flag "by" "" "Tells where the steps come from in the files" },
            FORMAT,
            VERBOSE,
            DEFS,
        ],
    ),
    (
        "facts",
        "Prints the facts of a certificate, or of the least one of a wiring",
        FACTS_HELP,
        &[
            WIRING,
            CERT_IF_ANY,
            row! { Free "task" "TASK" "Holdings of this task alone" },
            row! { Free "class" "CLASS" "Facts that name this class alone" },
            row! { Free "right" "RIGHT" "Facts of this right alone" },
            FORMAT,
            VERBOSE,
            DEFS,
        ],
    ),
    (
        "graph",
        "Draws the facts of a certificate, or of the least one of a wiring",
        GRAPH_HELP,
        &[
            WIRING,
            CERT_IF_ANY,
            row! { Free "policy" "FILE" "The forbidden holdings, which are drawn red" },
            row! { Free "fact" "FACT" "Draws the steps to this fact alone" },
            row! { Free "task" "TASK" "Draws the holdings of this task alone" },
            row! { Flag "holds" "" "Draws holdings alone, and not what is carried where" },
            FORMAT,
            VERBOSE,
            DEFS,
        ],
    ),
    (
        "slots",
        "Lists the slots of the messages, and which ports each admits",
        SLOTS_HELP,
        &[WIRING, FORMAT, VERBOSE, DEFS],
    ),
    (
        "promises",
        "Prints what to enforce at ports, and to find in the code of trusted tasks",
        PROMISES_HELP,
        &[WIRING, FORMAT, VERBOSE, DEFS],
    ),
    (
        "expand",
        "Prints the lines that a wiring of version 4 stands for",
        EXPAND_HELP,
        &[WIRING, VERBOSE, DEFS],
    ),
    (
        "replay",
        "Runs a script of calls, and prints the reply to each",
        REPLAY_HELP,
        &[WIRING, SCRIPT, FORMAT, VERBOSE, DEFS],
    ),
    (
        "live",
        "Checks, and runs a script of calls by tasks as threads",
        LIVE_HELP,
        &[WIRING, POLICY, CERT, SCRIPT, FORMAT, VERBOSE, DEFS],
    ),
    (
        "mig",
        "Writes MIG files of a system as files that can be read",
        MIG_HELP,
        &[
            row! { Needed "out" "FOLDER" "The folder of the files that are written" },
            row! { Flag "strict" "" "Writes nothing where a routine is left out" },
            row! {
                Flag "strict-rights" ""
                "The same as --strict=rights: writes nothing if one that carries rights is left out"
            },
            row! { Flag "as-received" "" "Takes each right that gives what is received" },
            FORMAT,
            VERBOSE,
            row! { NeededWords "defs" "FILE" "The MIG files, preprocessed" },
        ],
    ),
    (
        "encode",
        "Prints the bytes of a message that is said in words",
        ENCODE_HELP,
        &[
            row! { Needed "message" "WORDS" "The message in words, between braces" },
            VERBOSE,
            DEFS,
        ],
    ),
    (
        "decode",
        "Prints the words of a message by its bytes",
        DECODE_HELP,
        &[
            row! { Needed "hex" "HEX" "The bytes of the message, two digits a byte" },
            VERBOSE,
            DEFS,
        ],
    ),
];
