// The pages of the program: what it is, its version, and how it ends.

/// The page of the program and its commands.
pub(crate) const PROGRAM: &str =
    "p3l compiles P3L programs to networks of processes, and runs them on streams.

usage: p3l COMMAND ..

commands:
  run PROGRAM ..           run a program on the standard input
  compile PROGRAM ..       write the image of a program to a file
  exec IMAGE ..            run an image on the standard input
  migrate IMAGE ..         convert an image to the newest version and relink it
  export PROGRAM ..        write a program as a C file, for many processors
  explain PROGRAM ..       write the worker counts that are chosen for a program
  advise PROGRAM ..        say what processors buy, and where the time goes
  graph PROGRAM ..         write a picture of a program's network, for Graphviz
  verify-cert PROGRAM ..   check a certificate that worker counts are the best
  check-trace PROGRAM ..   check a trace against a run on the standard input
  check PROGRAM            say whether a program keeps the rules of the language
  fmt PROGRAM              write a program in its canonical text
  gen N ..                 generate a program and its items by a number, run it
  rewrite PROGRAM ..       write a program that means the same and is no slower
  profile PROGRAM          write the costs that a program shows on an input
  time PROGRAM ..          run a program in virtual time, say how long it took
  scan PROGRAM ..          fold every prefix of each list of the standard input
  save PROGRAM ..          run a recorded schedule and save the network's state
  resume SNAPSHOT ..       continue from a snapshot, on the standard input

help:
  help COMMAND      what a command does, its words and an example; the same as
                    p3l COMMAND --help
  help status       what the program's status and its message say
  help NUMBER       a number of refusal: the rule, a text that breaks it, and
                    how to mend it
  help language     the language on a page
  --version         the version, and the logic by which the program is proved

Options may come in any order, at most once each; numbers have no sign and no
leading zero. Results go to the standard output, and a message to the standard
error says why the program ended with another status than 0. One thread runs:
--processors chooses worker counts, and makes no run faster.
";

/// The version of the program, and the logic by which it is proved: that of the toolchain.
pub(crate) const VERSION: &str = "p3l 0.1.0
proved by rattle, logic dac8208d650f15bf
";

/// The statuses of the program, each with its message.
pub(crate) const STATUS: &str =
    "The status of p3l is 0 where all was done. With any other one, a line on the
standard error says why; in it NUMBER NAME is a refusal, and `p3l help NUMBER`
says more of it.

   0  the input was read to its end, and all was written
   1  stopped: F fired, I idle
      the picks of --schedule file: ended while some process could still fire
   2  usage: the words are not a command of p3l
      a word is missing, too many, or out of its form: see p3l help COMMAND
   3  source: LINE:COL: NUMBER NAME
      the program is refused at this place; columns count bytes
   4  costs: NUMBER NAME KEY
      the file of costs is refused at this key
   5  too few processors: need N
      give --processors N at least, or smaller `workers` clauses
   6  stream: line N: NUMBER NAME
      this line of the input is no item; all results before it were written
   7  trap: item N: KIND in MODULE
      the item came to a trap in a body; all results before it were written
   8  read fault
      the standard input could not be read
   9  file fault: NAME, or file too long: NAME
      a file could not be read, or is longer than its limit
  10  write fault
      the standard output or a file could not be written; or the file was read
      by this command, or is its standard input or output
  11  no memory
  12  schedule: line N: NUMBER NAME
      the file of picks is refused at this line
  13  evidence: NUMBER NAME ..
      an image, certificate, trace or snapshot is refused, or a trace differs
  14  input too long
      the input came to 68,719,476,736 bytes
  15  scan: NUMBER NAME
      the program can't be scanned, or not in so many segments

Kinds of traps: division by zero, division overflow (the least number by -1),
index out of range, shift out of range (by less than 0 or more than 63), budget
spent (more turns of loops in a body than its `budget`), turns spent (a `loop`
whose condition holds after its last turn).

An item is counted, not a line: items count from 1, and empty lines are none.
Item N of a file is on the line that this prints:

    grep -n '[^[:space:]]' FILE | sed -n 'Np' | cut -d: -f1

With --stats the line `stats: items N, fired F, idle I, bound B` stands before
the message. Where save has written its file it puts `saved: items K, picks A`.

At a terminal further lines say more: the place in the text, what is wrong
there, and which page of help to read. P3L_MESSAGES=short in the environment
leaves them out, P3L_MESSAGES=long shows them anywhere, and NO_COLOR takes the
colour out of them.
";
