// The texts of the files of `examples/`, by their names: of each program, its input, and what must come
// out.

pub const EXAMPLES: &str = r#"
text averages.p3l
| // The average of each batch, and whether it passes a mark. An empty batch has no average: -1 stands for it,
| // and the batches after it go on.
| const MARK = 10;
|
| seq average in(int sum, int count) out(int mean) rescue -1
| ${ mean = sum / count; }$
| end seq
|
| seq grade in(int mean) out(int same, int passes)
| ${
|   same = mean;
|   passes = mean >= MARK;
| }$
| end seq
|
| pipe main in(int sum, int count) out(int mean, int passes)
|   average in(sum, count) out(int m)
|   grade in(m) out(mean, passes)
| end pipe

text averages.txt
| 12 4
| 0 0
| 100 5

text averages.out
| 3 0
| -1 0
| 20 1

text farms.p3l
| // A pipe of two farms: numbers are squared by some workers, and their digits are summed by others.
| seq square in(int x) out(int y)
| ${ y = x * x; }$
| end seq
|
| farm squares in(int x) out(int y)
|   square in(x) out(y)
| end farm
|
| seq digits in(int x) out(int s)
| ${
|   int rest;
|   rest = x;
|   while (rest > 0) {
|     s = s + rest % 10;
|     rest = rest / 10;
|   }
| }$
| end seq
|
| farm sums in(int x) out(int s) workers 3
|   digits in(x) out(s)
| end farm
|
| pipe main in(int x) out(int s)
|   squares in(x) out(int y)
|   sums in(y) out(s)
| end pipe

text farms.txt
| 7
| 12
| 99
| 1234
| 0

text farms.out
| 13
| 9
| 18
| 28
| 0

text greatest.p3l
| // The greatest of ten numbers.
| seq larger in(int x, int y) out(int z)
| ${
|   if (x < y) {
|     z = y;
|   } else {
|     z = x;
|   }
| }$
| end seq
|
| reduce main in(int a[10]) out(int s) workers 4
|   larger in(a[*i]) out(s)
| end reduce

text greatest.txt
| 3 1 4 1 5 9 2 6 5 3
| -7 -3 -9 -1 -8 -2 -6 -4 -5 -10

text greatest.out
| 9
| -1

text halve.p3l
| // Halves a number until it is 1, and counts the steps; each item takes as many turns as it needs.
| seq half in(int x, int c) out(int y, int d)
| ${
|   y = x / 2;
|   d = c + 1;
| }$
| end seq
|
| seq more in(int x, int c) out(int again)
| ${ again = x > 1; }$
| end seq
|
| loop main in(int x, int c) out(int y, int d) turns 64
|   half in(x, c) out(y, d)
|   while more in(y, d) out(int again)
| end loop

text halve.txt
| 64 0
| 3 0
| 1000000 0
| 2 5

text halve.out
| 1 6
| 1 1
| 1 19
| 1 6

text hash.p3l
| // The FNV-1a hash of eight bytes, as a word of 64 bits with a sign. A product wraps, as the hash wants it.
| const LENGTH = 8;
| const PRIME = 1099511628211;
|
| seq main in(int bytes[LENGTH]) out(int hash)
| ${
|   int i;
|   // 14695981039346656037 is above the greatest number, so it is written as what it is modulo 2^64.
|   hash = -3750763034362895579;
|   for (i = 0; i < LENGTH; i = i + 1) {
|     hash = (hash ^ bytes[i]) * PRIME;
|   }
| }$
| end seq

text hash.txt
| 104 101 108 108 111 32 119 111
| 0 0 0 0 0 0 0 0

text hash.out
| -6323438951910650201
| -6284781860667377211

text histogram.p3l
| // How many of twelve numbers fall into each of four bins of the width 10; the first and the last one take what lies
| // outside.
| const SAMPLES = 12;
| const BINS = 4;
|
| seq main in(int samples[SAMPLES]) out(int counts[BINS])
| ${
|   int i;
|   int bin;
|   for (i = 0; i < SAMPLES; i = i + 1) {
|     bin = samples[i] / 10;
|     if (samples[i] < 0) {
|       bin = 0;
|     }
|     if (bin >= BINS) {
|       bin = BINS - 1;
|     }
|     counts[bin] = counts[bin] + 1;
|   }
| }$
| end seq

text histogram.txt
| 0 5 9 10 19 20 25 29 30 39 31 12
| -5 100 7 7 7 7 7 7 7 7 7 7

text histogram.out
| 3 3 3 3
| 11 0 0 1

text line.p3l
| seq main in(int x) out(int y)
| ${ y = x * 2 + 1; }$
| end seq

text line.txt
| 1
| 2
| -3

text line.out
| 3
| 5
| -5

text matrix.p3l
| // The product of two 3 by 3 matrices: each element is an inner product of a row and a column.
| const N = 3;
|
| seq dot in(int a[N], int b[N]) out(int c)
| ${
|   int i;
|   for (i = 0; i < N; i = i + 1) {
|     c = c + a[i] * b[i];
|   }
| }$
| end seq
|
| map main in(int a[N][N], int b[N][N]) out(int c[N][N])
|   dot in(a[*i][], b[][*j]) out(c[*i][*j])
| end map

text matrix.txt
| 1 2 3 4 5 6 7 8 9 1 0 0 0 1 0 0 0 1
| 1 2 3 4 5 6 7 8 9 9 8 7 6 5 4 3 2 1

text matrix.out
| 1 2 3 4 5 6 7 8 9
| 30 24 18 84 69 54 138 114 90

text norm.p3l
| // The square of the length of a vector, by two bodies that run in one process.
| const N = 4;
|
| seq squares in(int a[N]) out(int b[N])
| ${
|   int i;
|   for (i = 0; i < N; i = i + 1) {
|     b[i] = a[i] * a[i];
|   }
| }$
| end seq
|
| seq sum in(int a[N]) out(int s)
| ${
|   int i;
|   for (i = 0; i < N; i = i + 1) {
|     s = s + a[i];
|   }
| }$
| end seq
|
| comp main in(int a[N]) out(int s)
|   squares in(a) out(int b[N])
|   sum in(b) out(s)
| end comp

text norm.txt
| 1 2 3 4
| -1 0 0 5

text norm.out
| 30
| 26

text prefix.p3l
| // The running totals of eight numbers, by `p3l scan prefix.p3l --segments 4`: each result is the sum of
| // all up to its place. `p3l run` gives the last of them alone.
| const N = 8;
|
| seq add in(int x, int y) out(int z)
| ${
|   z = x + y;
| }$
| end seq
|
| reduce main in(int a[N]) out(int sum)
|   add in(a[*i]) out(sum)
| end reduce

text prefix.txt
| 1 2 3 4 5 6 7 8
| 5 -5 5 -5 5 -5 5 -5

text prefix.out
| 1 3 6 10 15 21 28 36
| 5 0 5 0 5 0 5 0

text root.p3l
| // The whole square root by Newton's method. A guess goes along with its number, and each item takes as many
| // turns of the loop as it needs.
| seq begin in(int number) out(int same, int guess)
| ${
|   same = number;
|   guess = number / 2 + 1;
| }$
| end seq
|
| seq better in(int number, int guess) out(int same, int next)
| ${
|   same = number;
|   next = (guess + number / guess) / 2;
| }$
| end seq
|
| seq above in(int number, int guess) out(int again)
| ${ again = guess != 0 && guess > number / guess; }$
| end seq
|
| loop newton in(int number, int guess) out(int same, int next) turns 64
|   better in(number, guess) out(same, next)
|   while above in(same, next) out(int again)
| end loop
|
| seq answer in(int number, int guess) out(int root)
| ${ root = guess; }$
| end seq
|
| pipe main in(int number) out(int root)
|   begin in(number) out(int same, int guess)
|   newton in(same, guess) out(int kept, int last)
|   answer in(kept, last) out(root)
| end pipe

text root.txt
| 0
| 1
| 2
| 144
| 1000000
| 9223372036854775807

text root.out
| 0
| 1
| 1
| 12
| 1000
| 3037000499

text signal.p3l
| // A signal of eight samples is scaled, and each item is smoothed by one of several workers.
| const N = 8;
|
| seq scale in(int a[N]) out(int b[N])
| ${
|   int i;
|   for (i = 0; i < N; i = i + 1) {
|     b[i] = a[i] * 3;
|   }
| }$
| end seq
|
| // The mean of a sample and its two neighbours, round a ring.
| seq smooth in(int a[N]) out(int b[N])
| ${
|   int i;
|   for (i = 0; i < N; i = i + 1) {
|     b[i] = (a[(i + N - 1) % N] + a[i] + a[(i + 1) % N]) / 3;
|   }
| }$
| end seq
|
| farm filters in(int a[N]) out(int b[N])
|   smooth in(a) out(b)
| end farm
|
| pipe main in(int a[N]) out(int b[N])
|   scale in(a) out(int c[N])
|   filters in(c) out(b)
| end pipe

text signal.txt
| 0 0 9 0 0 0 0 0
| 1 2 3 4 5 6 7 8
| -4 8 -4 8 -4 8 -4 8

text signal.out
| 0 9 9 9 0 0 0 0
| 11 6 9 12 15 18 21 16
| 12 0 12 0 12 0 12 0

text sliding.p3l
| // The sums of each eight neighbours round a ring of sixteen. The sums of 2 k neighbours are those of k and of the k
| // after them, so a loop doubles the width, which goes along with the sums.
| const N = 16;
| const WIDTH = 8;
|
| seq begin in(int a[N]) out(int sums[N], int width)
| ${
|   int i;
|   for (i = 0; i < N; i = i + 1) {
|     sums[i] = a[i];
|   }
|   width = 1;
| }$
| end seq
|
| seq double in(int sums[N], int width) out(int wider[N], int twice)
| ${
|   int i;
|   for (i = 0; i < N; i = i + 1) {
|     wider[i] = sums[i] + sums[(i + width) % N];
|   }
|   twice = width * 2;
| }$
| end seq
|
| seq narrow in(int sums[N], int width) out(int again)
| ${ again = width < WIDTH; }$
| end seq
|
| loop doubling in(int sums[N], int width) out(int wider[N], int twice) turns 4
|   double in(sums, width) out(wider, twice)
|   while narrow in(wider, twice) out(int again)
| end loop
|
| seq drop in(int sums[N], int width) out(int b[N])
| ${
|   int i;
|   for (i = 0; i < N; i = i + 1) {
|     b[i] = sums[i];
|   }
| }$
| end seq
|
| pipe main in(int a[N]) out(int b[N])
|   begin in(a) out(int sums[N], int width)
|   doubling in(sums, width) out(int wide[N], int last)
|   drop in(wide, last) out(b)
| end pipe

text sliding.txt
| 1 2 3 4 5 6 7 8 9 10 11 12 13 14 15 16
| 1 0 0 0 0 0 0 0 0 0 0 0 0 0 0 -1

text sliding.out
| 36 44 52 60 68 76 84 92 100 92 84 76 68 60 52 44
| 1 0 0 0 0 0 0 0 -1 0 0 0 0 0 0 0

text total.p3l
| // The sum of sixteen numbers, folded in segments by several processes.
| seq add in(int x, int y) out(int z)
| ${ z = x + y; }$
| end seq
|
| reduce main in(int a[16]) out(int s)
|   add in(a[*i]) out(s)
| end reduce

text total.txt
| 1 2 3 4 5 6 7 8 9 10 11 12 13 14 15 16
| 0 -1 4 -9 16 -25 36 -49 64 -81 100 -121 144 -169 196 -225

text total.out
| 136
| -120

text vector.p3l
| // A matrix by a vector: each element of the result is the inner product of a row and the whole vector, which goes
| // along with every row.
| const ROWS = 3;
| const COLUMNS = 4;
|
| seq dot in(int row[COLUMNS], int vector[COLUMNS]) out(int sum)
| ${
|   int i;
|   for (i = 0; i < COLUMNS; i = i + 1) {
|     sum = sum + row[i] * vector[i];
|   }
| }$
| end seq
|
| map main in(int matrix[ROWS][COLUMNS], int vector[COLUMNS]) out(int product[ROWS])
|   dot in(matrix[*i][], vector) out(product[*i])
| end map

text vector.txt
| 1 2 3 4 5 6 7 8 9 10 11 12 1 0 -1 2
| 1 0 0 0 0 1 0 0 0 0 1 0 7 8 9 10

text vector.out
| 6 14 22
| 7 8 9
"#;
