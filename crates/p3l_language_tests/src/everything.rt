// A text that uses every production of the grammar, and the canonical text of its program.

/// The text as somebody may write it.
pub const EVERYTHING: &str = "const N = 4;
seq s in(int x, int a[N][2]) out(int y) budget 50 rescue - 7 ${
  int i; int b[2][2][2];
  b[0][x + 1][(y)] = -!~x;
  y = a[i][0] * 2 / 3 % 4 + 5 - 6 << 1 >> 2 < 3 <= 4 > 5 >= 6 == 7 != 8 & 9 ^ 10 | 11 && 12 || 13;
  if (x) { y = 1; } else { }
  if (y) { while (i < N) { i = i + 1; } }
  for (i = 0; i < N; i = i + 1) { y = y + i; }
}$ end seq
comp c in(int x) out(int y) rescue N s in(x) out(int z, int w[2]) s in(z, w) out(y) end comp
pipe p in(int x) out(int y) c in(x) out(y) end pipe
farm f in(int x) out(int y) workers N c in(x) out(y) end farm
map m in(int a[N][2]) out(int b[N]) c in(a[*i][]) out(b[*i]) end map
reduce r in(int a[8]) out(int y) workers 2 c in(a[*i]) out(y) end reduce
loop main in(int x) out(int y) turns 9 tokens 2 c in(x) out(y) while c in(y) out(int t) end loop
";

/// The canonical text, written by hand.
pub const CANONICAL: &str = "const N = 4;

seq s in(int x, int a[N][2]) out(int y) budget 50 rescue -7
${
  int i;
  int b[2][2][2];
  b[0][x + 1][y] = -!~x;
  y = a[i][0] * 2 / 3 % 4 + 5 - 6 << 1 >> 2 < 3 <= 4 > 5 >= 6 == 7 != 8 & 9 ^ 10 | 11 && 12 || 13;
  if (x) {
    y = 1;
  } else {
  }
  if (y) {
    while (i < N) {
      i = i + 1;
    }
  }
  for (i = 0; i < N; i = i + 1) {
    y = y + i;
  }
}$
end seq

comp c in(int x) out(int y) rescue N
  s in(x) out(int z, int w[2])
  s in(z, w) out(y)
end comp

pipe p in(int x) out(int y)
  c in(x) out(y)
end pipe

farm f in(int x) out(int y) workers N
  c in(x) out(y)
end farm

map m in(int a[N][2]) out(int b[N])
  c in(a[*i][]) out(b[*i])
end map

reduce r in(int a[8]) out(int y) workers 2
  c in(a[*i]) out(y)
end reduce

loop main in(int x) out(int y) turns 9 tokens 2
  c in(x) out(y)
  while c in(y) out(int t)
end loop
";
