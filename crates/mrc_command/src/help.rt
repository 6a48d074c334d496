//! The texts of help.

pub(crate) const PROGRAM_HELP: &str = "Exit status of each command:
  0  YES was printed, or changes that lead to it, a certificate was made, a chain, facts, a
     drawing, slots, promises, lines or a message were printed, a script was replayed or run by threads, MIG
     files were written, or help or the version was printed
  1  NO was printed, with a reason, or REAL, with calls, or WAIVED without --waive, or none: if no
     chain leads to a fact, or if no change was found that leads to YES
  2  a fault was told on standard error: a file can't be read or has no meaning,
     the command line is wrong, the output was not taken, or memory ran out; or nothing is
     read of MIG files

With --verbose a fault is followed by its place: the line of the file with a mark below the word,
and what may help to mend it; and `mend` and `attack` say how far they have come. If standard error
is a terminal, this is always so.

With --format json, which all commands but `make`, `expand`, `encode` and `decode` have, the answer is
one JSON object for programs, and that of a fault is printed too. If the command line is wrong, there is none.

`machcheck check --help`, and the same of the other commands, tells of the files. Read on
in README.md, which starts with a worked example, and in docs/ARCHITECTURE.md.";

pub(crate) const CHECK_HELP: &str = "Files, as docs/FORMATS.md describes them:
  MIG files have the messages of the interfaces that the wiring names,
  a wiring has the tasks and ports, what they accept, and the rights that are held at first,
  a policy has who must never hold what,
  a certificate has who may come to hold what. It is not trusted.

--verbose says on standard error what to do where the certificate is not of this wiring.
It also shows where a fault is, and what may help to mend it.

With --waive what the policy waives is as if it were not forbidden, without it as if it were not
waived. What the policy expects is not judged, since a certificate may have more than can come
about. A line on standard error says so:
`machcheck: FILE: N expected facts are not judged: use verify`.

With YES a line on standard error names the tasks that the wiring trusts, if there are any:
`machcheck: FILE: trusted: TASK, TASK`. `machcheck promises` prints what they must keep to.

--format json prints the answer as one JSON object, and a fault too. docs/FORMATS.md describes
these objects. Standard error is the same as without it.

Exit status:
  0  YES: no list of calls can lead to a holding that the policy forbids
  1  NO, with the first reason: the certificate lacks what can come about, another task
     could rewrite a trusted one, or the certificate has what the policy forbids
  2  a fault on standard error, as `machcheck: FILE: FAULT`: a file can't be read or has
     no meaning, --format is not text or json (BadFormat), the command line is wrong, the
     output was not taken, or memory ran out

Read on in README.md, and in docs/ARCHITECTURE.md.";

pub(crate) const MAKE_HELP: &str = "Files, as docs/FORMATS.md describes them:
  MIG files have the messages of the interfaces that the wiring names,
  a wiring has the tasks and ports, what they accept, and the rights that are held at first.

The least certificate of the wiring is made: who may come to hold what, and nothing else. It
is written beside the file that --out names and then takes its place, so that the file is
never half written. Links are followed, and the file keeps its mode. A device, a pipe, a file
with other hard links or another owner, and one in a folder that allows no new file are
written in place: there WriteFailed N leaves the first N bytes. How many facts the
certificate has is printed. --workers says how many threads make it; the certificate is the
same whatever their number.

Exit status:
  0  the certificate was made
  2  a fault on standard error, as `machcheck: FILE: FAULT`: a file can't be read or has
     no meaning or was not taken, --workers is not a number from 1 to 64 (Workers), the
     command line is wrong, or memory ran out

Read on in README.md, and in docs/ARCHITECTURE.md.";

pub(crate) const EXPLAIN_HELP: &str = "Files, as docs/FORMATS.md describes them:
  MIG files have the messages of the interfaces that the wiring names,
  a wiring has the tasks and ports, what they accept, and the rights that are held at first.

A fact is printed as in a NO: `hold TASK CLASS RIGHT`, `carry CLASS CLASS RIGHT` or
`backup CLASS CLASS`. Where it is in the least certificate, a chain of rules is printed that
derives it: a line for each step, with its number from 0, the rule, what it concludes, and the
numbers of the steps that it follows from. The last step concludes the fact. --by adds where
a step comes from in the files, as `verify` does.

--format json prints the steps as one JSON object, with where each comes from, and a fault too.
docs/FORMATS.md describes these objects. Standard error is the same as without it.

Exit status:
  0  a chain was printed
  1  `none` was printed: the fact is not in the least certificate
  2  a fault on standard error, as `machcheck: FILE: FAULT`: a file can't be read or has no
     meaning, the text of the fact names none of the wiring (BadFact), --format is not text or
     json (BadFormat), the command line is wrong, the output was not taken, or memory ran out

Read on in README.md, and in docs/ARCHITECTURE.md.";

pub(crate) const REPLAY_HELP: &str = "Files, as docs/FORMATS.md describes them:
  MIG files have the messages of the interfaces that the wiring names,
  a wiring has the tasks and ports, what they accept, and the rights that are held at first,
  a script has a call of a task on each line.

Each call is made, one after the other, from the wiring's first state on. A line is printed
for each, with its number from 0, the task and the reply, and then how many there were and how
many ports are live.

--format json prints the calls and their replies as one JSON object, and a fault too.
docs/FORMATS.md describes these objects. Standard error is the same as without it.

Exit status:
  0  the script was run to its end: a call that is refused is told, and the next one is made
  2  a fault on standard error, as `machcheck: FILE: FAULT`: a file can't be read or has
     no meaning, --format is not text or json (BadFormat), the command line is wrong, the
     output was not taken, or memory ran out

Read on in README.md, and in docs/ARCHITECTURE.md.";

pub(crate) const LIVE_HELP: &str = "Files, as docs/FORMATS.md describes them:
  MIG files have the messages of the interfaces that the wiring names,
  a wiring has the tasks and ports, what they accept, and the rights that are held at first,
  a policy has who must never hold what,
  a certificate has who may come to hold what. It is not trusted,
  a script has a call of a task on each line.

The certificate is checked first. Then each task runs as a thread, which makes the calls of its
lines in order; between the tasks the order is that of the schedule. `wait NAME LIMIT` receives as
`receive` does, but waits for a message. In the end the journal is printed: a line for each event,
with its number from 0, the task and the reply, and then how many there were and how many ports are
live. It has 1,000,000 events at most. So it is where all tasks that have lines left wait, and no
message can come any more: then the lines that wait are named on standard error.

--format json prints the journal as one JSON object, and a fault too. docs/FORMATS.md describes
these objects. Standard error is the same as without it.

Exit status:
  0  the script was run to its end: a call that is refused is told, and the next one is made
  1  NO, with the first reason, as `check` tells it: nothing was run
  2  a fault on standard error, as `machcheck: FILE: FAULT`: a file can't be read or has
     no meaning, the journal is full, all tasks that have lines left wait (`AllWait`, with
     the lines), --format is not text or json (BadFormat), the command line is wrong, the
     output was not taken, or memory ran out

Read on in README.md, and in docs/ARCHITECTURE.md.";

pub(crate) const VERIFY_HELP: &str = "Files, as docs/FORMATS.md describes them:
  MIG files have the messages of the interfaces that the wiring names,
  a wiring has the tasks and ports, what they accept, and the rights that are held at first,
  a policy has who must never hold what.

All that may come about is found and judged: no certificate is needed, and none is written.
YES is printed if the policy forbids none of it, and no other task could rewrite one that the
wiring trusts. If one could, `NO trusted line N FACT` is printed, with the number of the first
line that trusts the task, and that the other task holds its kernel port. Each line of the policy
that is broken is printed as `NO forbidden line N FACT`. Below each of these is printed how the
fact comes about, a line for each step: its number from 0, the rule, what it concludes, the
numbers of the steps that it follows from, and where it comes from in the files: `by line N` of
the wiring, `by SUBSYSTEM.ROUTINE.ARGUMENT (SUBSYSTEM.TYPE)`, `by SUBSYSTEM` for the reply right
of a request, `by task:U` for the task whose kernel port is held. --tree prints the steps from
the fact down instead, each above those that it follows from. --brief prints no steps.

With --line N only line N of the policy is printed, if it is broken. --verbose prints the text of
line N below each NO, as `  # TEXT`. This is always so if standard output is a terminal. With
--brief, or with these texts, a first line may name a fact that the steps to K of the N broken
lines have in common: `# K of N lines by: FACT`.

A policy of version 3 can name its lines, expect facts, and waive forbidden ones. Behind N then
comes the line's name in quotes. `NO expected line N FACT` is printed of a fact that is expected
and can't come about. `WAIVED line N FACT WORDS` is printed in place of `NO forbidden` of a fact
that is waived, with the words that say why. Neither has steps. Waived facts do no harm with
--waive; without it there is no YES if one can come about.

With YES a line on standard error names the tasks that the wiring trusts, if there are any:
`machcheck: FILE: trusted: TASK, TASK`. `machcheck promises` prints what they must keep to.

--format json prints the answer as one JSON object, and a fault too. --format sarif prints a SARIF
log, in which a code host finds each broken line as a result. docs/FORMATS.md describes both.
Standard error is the same as without them.

Exit status:
  0  YES: no list of calls can lead to a holding that the policy forbids
  1  NO: a trusted task that another could rewrite, and each line that is broken, with the
     steps that lead there; or, without --waive, a line that is WAIVED
  2  a fault on standard error, as `machcheck: FILE: FAULT`: a file can't be read or has
     no meaning, --line is not a number from 1 to 4294967295 (BadLine) or that line is not
     broken (NotBroken), --format is not text, json or sarif (BadFormat), the command line is
     wrong, the output was not taken, or memory ran out

Read on in README.md, and in docs/ARCHITECTURE.md.";

pub(crate) const MEND_HELP: &str = "Files, as docs/FORMATS.md describes them:
  MIG files have the messages of the interfaces that the wiring names,
  a wiring has the tasks and ports, what they accept, and the rights that are held at first,
  a policy has who must never hold what.

If `verify` prints NO, changes of the wiring are looked for after which it prints YES. Each is a
line: `K remove line N # WORDS` with the words of the line, `K change line N # LINE` with the line
as it then is, `K add admit S.TYPE CLASS # restricts S.TYPE`, or `K add trust TASK VERB none`. The
lines with the same K are to be made together. The smallest changes come first, and of one size
those that lose the fewest facts. Each one that is printed has been judged: with it the answer is
YES. At most three changes are made together; only if no so few are found, or if more than eight
lines are broken, there may be more. --most says how many are printed, and is 10 if it is not given.

If several lines of the policy are broken, a first line may print a fact that the chains of all
have in common: `# all N broken lines have FACT in their chains`. Behind each change is how many of
the broken lines it mends in addition to those before it.

With --line N only line N of the policy is looked at: with the changes it is not broken, and no
trusted task can be rewritten, while other lines may be broken.

The answer after a mend is YES with what the policy expects, too. If an expected fact is lacking
already, `none` is printed. With --waive what the policy waives need not be mended.

--format json prints the changes as one JSON object, and a fault too. docs/FORMATS.md describes
these objects. Standard error is the same as without it.

Exit status:
  0  changes were printed, or YES: nothing has to be changed
  1  `none` was printed: no such changes were found
  2  a fault on standard error, as `machcheck: FILE: FAULT`: a file can't be read or has
     no meaning, --line is not a number from 1 to 4294967295 (BadLine) or that line is not
     broken (NotBroken), --most is not a number from 1 to 1000000 (BadMost), --format is not text
     or json (BadFormat), the command line is wrong, the output was not taken, or memory ran out

Read on in README.md, and in docs/ARCHITECTURE.md.";

pub(crate) const ATTACK_HELP: &str = "Files, as docs/FORMATS.md describes them:
  MIG files have the messages of the interfaces that the wiring names,
  a wiring has the tasks and ports, what they accept, and the rights that are held at first,
  a policy has who must never hold what.

If `verify` prints NO, the steps below it follow the rules, and the rules allow more than the
machine does. So for each line that is broken, calls of the tasks are looked for that lead from
the first state of the wiring to a state in which a task has what the line forbids. If such calls
are found, `REAL line N FACT` is printed, and below it the calls as a script: a line for each
call, behind two blanks. The calls were run on the machine, and the last state was judged.
Otherwise `NO line N FACT not reached` is printed: no such calls were found, and there may be
none. A trusted task that another could rewrite comes first, as `REAL trusted line N FACT` or
`NO trusted line N FACT not reached`.

With --line N only line N of the policy is looked at. If calls are found, all that is printed is
a script, which `replay` runs. Its first line is `# REAL line N FACT`.

The calls are those of a chain of rules: first of the one that `verify` prints, then of others that
do without a step that could not be made. --most says how many chains are played for a line, and is
30 if it is not given; other chains are looked for 100 times at most. If one of these bounds ends a
search, a line on standard error names the line of the policy:
`machcheck: attack: line N: not all ways were tried`. All else on standard error is as `verify`
prints it.

What the policy expects or waives is printed as `verify` prints it, and no calls are looked for.
With --waive waived facts do no harm.

--format json prints the calls that were found as one JSON object, and a fault too.
docs/FORMATS.md describes these objects. Standard error is the same as without it.

Exit status:
  0  YES: no list of calls can lead to a holding that the policy forbids
  1  REAL or NO for each line that is broken; or, without --waive, a line that is WAIVED
  2  a fault on standard error, as `machcheck: FILE: FAULT`: a file can't be read or has
     no meaning, --line is not a number from 1 to 4294967295 (BadLine) or that line is not
     broken (NotBroken), --most is not a number from 1 to 1000000 (BadMost), --format is not text
     or json (BadFormat), the command line is wrong, the output was not taken, or memory ran out

Read on in README.md, and in docs/ARCHITECTURE.md.";

pub(crate) const FACTS_HELP: &str = "Files, as docs/FORMATS.md describes them:
  MIG files have the messages of the interfaces that the wiring names,
  a wiring has the tasks and ports, what they accept, and the rights that are held at first,
  a certificate has who may come to hold what.

The facts of the certificate are printed, one a line, or those of the least certificate of the
wiring where none is named. With --task those are left out that are no holdings of the task,
with --class those that do not name the class, with --right those of another right. Of a
certificate nothing is claimed but that it has these facts: `check` judges it. Two wirings are
compared by `diff` of what is printed for each.

--format json prints the facts as one JSON object, and a fault too. docs/FORMATS.md describes
these objects. Standard error is the same as without it.

Exit status:
  0  the facts were printed
  1  `NO counts` was printed: the certificate is not of this wiring
  2  a fault on standard error, as `machcheck: FILE: FAULT`: a file can't be read or has
     no meaning, --task, --class or --right names none of the wiring (BadTask, BadClass,
     BadRight), --format is not text or json (BadFormat), the command line is wrong, the output
     was not taken, or memory ran out

Read on in README.md, and in docs/ARCHITECTURE.md.";

pub(crate) const GRAPH_HELP: &str = "Files, as docs/FORMATS.md describes them:
  MIG files have the messages of the interfaces that the wiring names,
  a wiring has the tasks and ports, what they accept, and the rights that are held at first,
  a certificate has who may come to hold what,
  a policy has who must never hold what.

The facts of the certificate are drawn, or those of the least certificate of the wiring where
none is named: tasks, classes of ports, who may hold what, and what may be carried where. The
drawing is printed in the language of graphviz: `machcheck graph .. | dot -Tsvg` makes a
picture of it. What is held at first is solid, what comes about is dashed, and what the policy
forbids is red. With --fact the steps alone are drawn that lead to the fact. With --task only
what this task may hold is drawn, and with --holds only what tasks may hold.

--format json prints what is drawn as one JSON object, and a fault too. docs/FORMATS.md describes
these objects. Standard error is the same as without it.

Exit status:
  0  the drawing was printed
  1  `NO counts` was printed, where the certificate is not of this wiring, or `none`, where
     no chain leads to the fact
  2  a fault on standard error, as `machcheck: FILE: FAULT`: a file can't be read or has
     no meaning, the text of the fact names none of the wiring (BadFact), --task names none of
     it (BadTask), --format is not text or json (BadFormat), the command line is wrong, the
     output was not taken, or memory ran out

Read on in README.md, and in docs/ARCHITECTURE.md.";

pub(crate) const SLOTS_HELP: &str = "Files, as docs/FORMATS.md describes them:
  MIG files have the messages of the interfaces that the wiring names,
  a wiring has the tasks and ports, what they accept, and the rights that are held at first.

A slot is an argument of a message that carries a port right. Each slot of the MIG files is
printed as `SUBSYSTEM.ROUTINE.ARGUMENT (SUBSYSTEM.TYPE): CLASS, CLASS`, in the order of the files,
of ids and of arguments. The classes are those that the `admit` lines of the type name: only their
ports pass. `any` is printed if no line names the type, and `none` if its lines name no class.

--format json prints the slots as one JSON object, and a fault too. docs/FORMATS.md describes
these objects. Standard error is the same as without it.

Exit status:
  0  the slots were printed
  2  a fault on standard error, as `machcheck: FILE: FAULT`: a file can't be read or has
     no meaning, --format is not text or json (BadFormat), the command line is wrong, the
     output was not taken, or memory ran out

Read on in README.md, and in docs/ARCHITECTURE.md.";

pub(crate) const EXPAND_HELP: &str = "Files, as docs/FORMATS.md describes them:
  MIG files have the messages of the interfaces that the wiring names,
  a wiring has the tasks and ports, what they accept, and the rights that are held at first.

A line of a wiring of version 4 can name several tasks, ports or classes, and groups and sets of
them, and stands for a line for each. These lines are printed behind the heading, in their order,
without comments. What is printed is a wiring that means the same. Of an older wiring it is its
own lines.

Exit status:
  0  the lines were printed
  2  a fault on standard error, as `machcheck: FILE: FAULT`: a file can't be read or has
     no meaning, the command line is wrong, the output was not taken, or memory ran out

Read on in README.md, and in docs/ARCHITECTURE.md.";

pub(crate) const ENCODE_HELP: &str = "A message in words, as docs/FORMATS.md describes it:

  { I.R to NAME reply NAME ARGUMENT=VALUE .. }      a request of the routine R of I
  { reply I.R to NAME ARGUMENT=VALUE .. }           its reply

Its bytes are printed as HEX, as scripts of calls have them behind `send`: with the id, sizes,
descriptors and padding of the message that the MIG files describe.

Exit status:
  0  the bytes were printed
  2  a fault on standard error, as `machcheck: FILE: FAULT`: a file can't be read or is no MIG
     file, the words are no message of the files (as `machcheck: --message: FAULT`), the command
     line is wrong, the output was not taken, or memory ran out

Read on in README.md, and in docs/ARCHITECTURE.md.";

pub(crate) const DECODE_HELP: &str =
    "The bytes of a message are printed in words, as docs/FORMATS.md
describes them: by the first MIG file that has a message of the same id, whose arguments are of
the types, bits and numbers that the file says. `machcheck encode` reads what is printed as the
same message.

Exit status:
  0  the words were printed
  2  a fault on standard error, as `machcheck: FILE: FAULT`: a file can't be read or is no MIG
     file, the bytes are no message, or none of the files (as `machcheck: --hex: FAULT`), the
     command line is wrong, the output was not taken, or memory ran out

Read on in README.md, and in docs/ARCHITECTURE.md.";

pub(crate) const PROMISES_HELP: &str = "Files, as docs/FORMATS.md describes them:
  MIG files have the messages of the interfaces that the wiring names,
  a wiring has the tasks and ports, what they accept, and the rights that are held at first.

A YES is of machcheck's machine, which refuses what the wiring does not name. A kernel or a
filter has to refuse the same, and where it does not, the code of tasks has to keep to it.

A line is printed for each class of wired ports and of births, in the order of their numbers:
which messages may be delivered there. Then one for each type that `admit` lines name, of a
subsystem of which some class accepts messages: on which ports the rights in its slots may be.
Behind each are the numbers of the lines of the wiring that say so.

Then a line is printed for each `trust` line, in their order: the task, the calls of Mach to look
for in its code, with which rights on which ports they may be there, and the number of the line.
Lines of one task about the same calls belong together: each behind the first begins its limit
with `or`, and what none of them allows must not be there. What `replies fit` asks is printed as a
line for each task.

--format json prints these lines as one JSON object, and a fault too. docs/FORMATS.md describes
these objects. Standard error is the same as without it.

Exit status:
  0  a line was printed for each of them
  2  a fault on standard error, as `machcheck: FILE: FAULT`: a file can't be read or has
     no meaning, --format is not text or json (BadFormat), the command line is wrong, the
     output was not taken, or memory ran out

Read on in README.md, and in docs/ARCHITECTURE.md.";

pub(crate) const MIG_HELP: &str = "Files, as docs/MIG.md describes them:
  MIG files of a system, in which the C preprocessor has worked out conditions, macros and
  includes. `bin/machcheck mig` does so before.

`bin/machcheck mig` also has the options of the preprocessor, which this program itself does not
read: -I FOLDER for a folder of included files, -D NAME[=TEXT] and -U NAME for macros.

Each file is written to one of the same name in the folder that --out names: its own text, with
the line `#pragma machcheck 2` in front. A text that has this line already is written as it is.
On standard error a line tells each type that is not read and each routine that is left out, as
`FILE:LINE: type NAME not read: WORD TEXT` and
`FILE:LINE: routine NAME (id N) left out: WORD TEXT, carries ARGUMENT (TYPE), ..`, with a word that
docs/MIG.md explains, the word of the file at which it is told, and the arguments that may carry
port rights, if there are any. A line tells how many routines are read of each file, as
`FILE: 5 of 8 routines read, 2 of those left out carry rights`. What `verify` and `check` report of
a file they find in it again. Files are written when all are read, and replaced as `make` replaces
a certificate.

--as-received writes the line `#pragma machcheck 2 received`: then each right of a message may be
sent in each way that gives what its receiver is shown. docs/MIG.md tells when that is asked.

--strict writes nothing if a routine is left out, --strict=rights only if one that carries rights
is left out.

--format json prints one JSON object that has what is left out of each file, and one of a fault.
docs/FORMATS.md describes these objects. Standard error is the same as without it.

Exit status:
  0  the files were written: of one of them at least a routine is read
  2  no routine is read, or --strict or --strict=rights refuses one that is left out: nothing was
     written; or a fault on standard error, as `machcheck: FILE: FAULT`: a file can't be read,
     has no meaning or was not taken, two files have one name (SameName), --format is not text or
     json (BadFormat), the command line is wrong, or memory ran out

Read on in README.md, and in docs/MIG.md.";
