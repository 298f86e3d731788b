// The texts with which the program answers words that request help.

use crate::lists::spelled_words;
use p3l_help::all_pages;
use std::alloc::Global;
use std::test::Fail;

/// Each command, and what its help names: its values and options.
const COMMANDS: &str = "check: PROGRAM
fmt: PROGRAM
explain: PROGRAM, --processors P, --costs FILE, --cert FILE
advise: PROGRAM, --processors P, --costs FILE, --processes
compile: PROGRAM, --processors P, --output FILE, --costs FILE, --capacity C
migrate: IMAGE, --output FILE
export: PROGRAM, --processors P, --output FILE, --costs FILE, --capacity C
graph: PROGRAM, --processors P, --costs FILE, --capacity C
verify-cert: PROGRAM, --cert FILE, --costs FILE
rewrite: PROGRAM, --processors P, --costs FILE
run: PROGRAM, --processors P, --costs FILE, --schedule S, --capacity C, --trace FILE, --stats
exec: IMAGE, --schedule S, --trace FILE, --stats
check-trace: PROGRAM, --processors P, --trace FILE, --costs FILE, --capacity C
gen: N, --processors P, --items I, --schedule S, --save PREFIX
profile: PROGRAM
time: PROGRAM, --processors P, --costs FILE, --capacity C, --picks FILE
scan: PROGRAM, --segments M, --schedule S, --capacity C, --stats
save: PROGRAM, --processors P, --schedule S, --output FILE, --costs FILE, --capacity C
resume: SNAPSHOT, --schedule S, --stats";

/// Each number of refusal, and its name.
const REFUSALS: &str = "1 BadByte
2 BadToken
3 Expected
4 NumberTooBig
5 NameTooLong
6 SourceTooLong
8 TooNested
10 UnknownName
11 BadSize
12 TooWide
20 Twice
21 NoMain
22 UsedBeforeDefined
23 Arity
24 TypeDiffers
25 Wiring
26 FreeIndex
27 BadOperator
28 NotInComp
29 LoopTypes
30 BadWorkers
31 TooManyInstances
32 TooDeep
33 TooHeavy
40 Undeclared
41 DeclaredTwice
42 NotArray
43 IsArray
44 WriteToIn
50 NotToml
51 BadKey
52 BadValue
53 Missing
70 RowWrong
71 RowMissing
72 ClaimWrong
73 BadText
80 BadMagic
81 Version
82 Short
83 BadField
84 TrailingBytes
90 CodeUnsafe
91 NotLinked
92 TreeWrong
95 BadPick
96 NoSuchProcess
100 BadWord
101 WrongCount
102 OutOfRange
110 BadLine
111 Differs
120 NotReduce
121 BadSegments
130 BadShot
131 NotSound";

/// Words with a bar between two, and what they request.
const REQUESTS: &str = "--help => the list
-h|run => the list
help|--help => the list
help|-h => the list
help => the list
--version|x => the version
-V|run => the version
run|-V => the version
gen|--version => the version
help|-V => the version
help|version => the version
run => nothing
run|m.p3l => nothing
walk|--help => nothing
walk|-V => nothing
help|walk => nothing
help|7 => nothing
m.p3l|help => nothing
|-h => nothing
help| => nothing
fmt|--|--help => nothing
help|run|fmt => nothing";

/// The program's output for a request for its version.
const VERSION: &str = "p3l 0.1.0
proved by rattle, logic dac8208d650f15bf
";

/// Returns true exactly if a text has a line with this word, after these bytes and before a space.
fn names(text: &str, before: &str, word: &str) -> bool {
    for line in text.lines() {
        let rest = match line.strip_prefix(before) {
            Some(rest) => rest.strip_prefix(word),
            None => None,
        };
        if rest.is_some_and(|rest| rest.starts_with(' ')) {
            return true;
        }
    }
    false
}

/// Returns true exactly if some line of a text begins so.
fn begins_a_line(text: &str, front: &str) -> bool {
    for line in text.lines() {
        if line.starts_with(front) {
            return true;
        }
    }
    false
}

/// Returns true exactly if the first line of a text is this one.
fn is_first_line(text: &str, line: &str) -> bool {
    match text.strip_prefix(line) {
        Some(rest) => rest.starts_with('\n'),
        None => false,
    }
}

/// The page on a topic.
fn page_on(topic: &str) -> &'static str {
    match all_pages().answer(&["help", topic]) {
        Some(page) => page,
        None => "",
    }
}

/// Returns true exactly if the page of a command names it in its usage and its example, and has a
/// line for each of its words.
fn names_its_words(command: &str, words: &str) -> bool {
    let page = page_on(command);
    for word in words.split(", ") {
        if !names(page, "  ", word) {
            return false;
        }
    }
    names(page, "usage: p3l ", command) && names(page, "example: p3l ", command)
}

/// Returns true exactly if each way to request the page of a command is answered with it.
fn is_answered(command: &str) -> bool {
    let page = all_pages().answer(&["help", command]);
    all_pages().answer(&[command, "--help", "more"]) == page
        && all_pages().answer(&[command, "m.p3l", "-h"]) == page
        && all_pages().answer(&[command, "-h", "--version"]) == page
}

#[test]
fn each_command_has_a_page_and_its_line_in_the_list(rt: HostRuntime) -> Result<(), Fail> {
    let list = page_on("help");
    for row in COMMANDS.lines() {
        let (command, words) = row.split_once(": ").ok_or("no words")?;
        assert!(rt;
            names_its_words(command, words) && is_answered(command) && names(list, "  ", command),
            "{command}"
        );
    }
    Ok(())
}

/// The page of a number of refusal begins with it and the name that the program prints after it, and
/// has a run that shows it and how to mend it.
#[test]
fn each_number_of_refusal_has_a_page(rt: HostRuntime) -> Result<(), Fail> {
    for row in REFUSALS.lines() {
        let (number, _) = row.split_once(' ').ok_or("no name")?;
        let page = page_on(number);
        let shows_a_run = begins_a_line(page, "    $ ");
        let says_how_to_mend = begins_a_line(page, "To mend it: ");
        assert!(rt;
            is_first_line(page, row) && shows_a_run && says_how_to_mend,
            "{row}"
        );
    }
    Ok(())
}

#[test]
fn other_topics_have_a_page(rt: HostRuntime) {
    assert!(rt; begins_a_line(page_on("status"), "  13  evidence: NUMBER NAME"));
    let title = "Not in the language, and what to write instead";
    assert!(rt; begins_a_line(page_on("language"), title));
}

/// Returns what must be answered to a request.
fn text_of(requested: &str) -> Option<&'static str> {
    match requested {
        "the list" => Some(page_on("help")),
        "the version" => Some(VERSION),
        _ => None,
    }
}

/// Tells whether these words, with a bar between two, are answered with what they request.
fn get(alloc: Global, words: &str, requested: &str) -> Result<bool, Fail> {
    let words = spelled_words(alloc, words)?;
    Ok(all_pages().answer(words.as_slice()) == text_of(requested))
}

#[test]
fn words_are_answered_with_what_they_request(rt: HostRuntime) -> Result<(), Fail> {
    for row in REQUESTS.lines() {
        let (words, requested) = row.split_once(" => ").ok_or("no request")?;
        assert!(rt; get(rt.alloc(), words, requested)?, "{words}");
    }
    assert!(rt; all_pages().answer(&[]).is_none());
    Ok(())
}
