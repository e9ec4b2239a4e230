// Scripts of examples/, most without their comments. `tools/examples` compares their transcripts;
// here stand the scripts alone, for what is tried beside those, since a test reads no files.
pub(super) const ONE_GUEST: &str = "nephele 1
frames 16
program p
w 16384 6869
r 16384 3
exit
end
domain p 8 0 open
";

pub(super) const CLONE: &str = "nephele 1
frames 32
program p
w 16384 61
clone
jchild kid
w 16384 62
r 16384 1
exit
label kid
r 16384 1
end
domain p 8 1 open
";

const INTERLEAVED: &str = "nephele 1
frames 32
program p
clone
jchild kid
w 16384 62
free
exit
label kid
w 16384 63
end
domain p 8 1 open
turns 1 1 1 1 1 1 daemon 1 2 1 2 1 2 1 2 1
";

const MAPPING: &str = "nephele 1
frames 16
program p
r 40960 1
w 0 00
map 10 8 ro
map 10 2 rw
map 10 4 ro
w 40960 00
unmap 10
unmap 10
map 512 4 rw
free
w 2097152 07
r 16384 1
end
domain p 8 0 open
";

const NESTED: &str = "# a comment before the first line
nephele 1

frames 44
#frames 16
program p
# counted in nothing
w 16384 01

clone
#
jchild a
r 16384 1
exit

label a
# the next one is line 5
clone
jchild b
w 16384 02
exit
label b
label c
r 16384 1
r 0 12
end
# after
domain p 8 1 open

";

const TWO_PROGRAMS: &str = "nephele 1
frames 64
program p
clone
jchild kid
free
w 16384 62
free
exit
label kid
w 16384 63
end
program q
free
map 512 4 rw
w 2097152 07
free
r 16384 1
jfail no
r 0 4
w 0 00
jfail yes
free
label no
label yes
end
domain p 8 1 open
domain q 9 0 open
turns 1 2 1 1 2 1 1 2
turns 2 1 daemon 3 daemon
";

const FAMILY: &str = "nephele 1
frames 630
program p
clone
clone
clone
clone
clone
clone
end
domain p 8 6 open
";

const FEW_FRAMES: &str = "nephele 1
frames 26
program p
w 16384 61
clone
jchild kid
free
w 16384 62
map 512 5 rw
clone
w 16384 62
map 512 5 rw
free
clone
free
r 16384 1
exit
label kid
r 16384 1
end
program q
end
domain p 8 2 open
domain q 8 0 open
turns 1 1 1 1 1 1 1 daemon 1 1 1 1 1 1 2
turns 1 1 1 1 1 1
";

pub(super) static EXAMPLES: [&str; 8] = [
    ONE_GUEST,
    CLONE,
    INTERLEAVED,
    MAPPING,
    NESTED,
    TWO_PROGRAMS,
    FAMILY,
    FEW_FRAMES,
];
