// The page of the language.

/// The language: its forms, operators, limits, and what it has not.
pub(crate) const LANGUAGE: &str =
    "A program is constants and modules; what `main` gives for an item of the input
is a line of the output. Values are whole numbers of 64 bits.

    const N = 4;

    seq square in(int x) out(int y)
    ${
      y = x * x;
    }$
    end seq

    map main in(int a[N]) out(int b[N])
      square in(a[*i]) out(b[*i])
    end map

Modules
  seq NAME in(PORTS) out(PORTS) [budget B] [rescue R]
      ${ DECLARATIONS STATEMENTS }$ end seq
                                a body
  comp NAME .. [rescue R] CALL CALL .. end comp
                                one after another, in one process
  pipe NAME .. CALL CALL .. end pipe
                                one after another, each in its own processes
  farm NAME .. [workers W] CALL end farm
                                copies of one module, which take items by turns
  map NAME .. [workers W] CALL end map
                                one module on each element of arrays
  reduce NAME .. [workers W] CALL end reduce
                                the elements of an array folded to one
  loop NAME .. turns T [tokens K] CALL while CALL end loop
                                again and again while the second call gives no 0

Ports are `int x` or `int a[3][4]`. A call is
`NAME in(ARGUMENTS) out(ARGUMENTS)`; between stages of a `pipe` or `comp`, and
as the out of a loop's condition, an out is a new port, `out(int z)`. In a `map`
and a `reduce` a star marks an index that tells elements apart, `a[*i]`, and
empty brackets leave a whole row, `a[*i][]`. A module calls only modules that
stand above it. Where a trap comes in a module with `rescue -1`, each word that
it gives is -1, and the stream goes on.

Bodies
  int i; int t[8];              local variables, which begin at 0, as outs do
  y = E;  a[E] = E;             ins and constants are only read
  if (E) { .. } else { .. }     braces are always written
  while (E) { .. }
  for (i = 0; i < N; i = i + 1) { .. }

Operators, the loosest first; all of a line group to the left
  ||        &&        |        ^        &        == !=        < <= > >=
  << >>     + -       * / %    and before an operand: - ! ~
Sums, differences, products and - wrap. / truncates, and % has the sign of the
dividend. >> keeps the sign. Comparisons, !, && and || give 0 or 1. A zero
divisor, an index or a shift out of range ends the run by a trap: see p3l help
status.

Limits
  64 bytes a name, 3 sizes of 1 to 65,536 an array, 65,536 words in, out and in
  local variables, 128 instances, 6 deep, 64 open brackets and 256 operators an
  expression, 1,000,000 turns of loops in a body (budget: up to 100,000,000),
  65,536 turns of a loop, 134,217,728 firings an item

Not in the language, and what to write instead
  const K = -3;                 const K = 3; and -K
  int i = 5;                    int i; i = 5;
  else if (..) { .. }           else { if (..) { .. } }
  0x1F                          31
  for (int i = 0; ..)           int i; at the start of the body
  i++; i += 2;                  i = i + 1; i = i + 2;
  a >>> k (zeros from above)    (x >> k) & ((1 << (64 - k)) - 1), where 0 < k
  c ? a : b                     if (c) { y = a; } else { y = b; }
  recursion                     a loop, or while in a body
  1.5                           15, counted in tenths
  names that clash with words   seq pipe farm map reduce comp loop end in out
                                int const workers turns tokens budget rescue
                                while if else for

`p3l help NUMBER` has the rule of a refusal. `p3l fmt` shows the canonical text.
";
