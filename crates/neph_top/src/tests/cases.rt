// Scripts that no example has, with their transcripts.
// A script, and its transcript.
#[derive(Clone, Copy)]
pub(super) struct Case {
    pub(super) script: &'static str,
    pub(super) text: &'static str,
}

// The last reference to a frame is taken over.
const LAST_REFERENCE: Case = Case {
    script: "nephele 1
frames 32
program p
clone
jchild kid
r 16384 1
free
w 16384 62
free
exit
label kid
w 16384 63
end
domain p 8 1 open
turns 1 1 1 1 1 1 daemon 2 2 2 2 1 1 1 1 1
",
    text: "transcript 1
1:0 clone = begin 2
1:0 commit = 2
daemon = 2
2:1 jchild kid = go
2:7 w 16384 63 = ok
1:1 jchild kid = on
1:2 r 16384 1 = 00
1:3 free = 15
1:4 w 16384 62 = ok
1:5 free = 15
1:6 exit = ended
2:8 exit = ended
frames 32 colours 0 tables 0 spares 0 aside 0 free 32
end ended
",
};

// Parent and child at the limit 1: each has its own count.
const CLONE_OF_A_CHILD: Case = Case {
    script: "nephele 1
frames 64
program p
clone
jchild k
clone
label k
end
domain p 8 1 open
",
    text: "transcript 1
1:0 clone = begin 2
1:0 commit = 2
daemon = 2
1:1 jchild k = on
2:1 jchild k = go
1:2 clone = no limit
2:3 exit = ended
1:3 exit = ended
frames 64 colours 0 tables 0 spares 0 aside 0 free 64
end ended
",
};

// Bytes at both ends of a page, and the identity page.
const ENDS_OF_A_PAGE: Case = Case {
    script: "nephele 1
frames 16
program p
w 20479 ff
r 20478 2
r 0 12
w 16384 000102030405060708090a0b0c0d0e0f101112131415161718191a1b1c1d1e1f202122232425262728292a2b2c2d2e2f303132333435363738393a3b3c3d3e3f
r 16384 64
end
domain p 8 0 open
",
    text: "transcript 1
1:0 w 20479 ff = ok
1:1 r 20478 2 = 00ff
1:2 r 0 12 = 010000000000000008000000
1:3 w 16384 000102030405060708090a0b0c0d0e0f101112131415161718191a1b1c1d1e1f202122232425262728292a2b2c2d2e2f303132333435363738393a3b3c3d3e3f = ok
1:4 r 16384 64 = 000102030405060708090a0b0c0d0e0f101112131415161718191a1b1c1d1e1f202122232425262728292a2b2c2d2e2f303132333435363738393a3b3c3d3e3f
1:5 exit = ended
frames 16 colours 0 tables 0 spares 0 aside 0 free 16
end ended
",
};

// A limit comes before the frames that a clone needs; a script needs none for its clones.
pub(super) const LIMIT_FIRST: Case = Case {
    script: "nephele 1
frames 16
program p
clone
end
domain p 8 0 open
",
    text: "transcript 1
1:0 clone = no limit
1:1 exit = ended
frames 16 colours 0 tables 0 spares 0 aside 0 free 16
end ended
",
};

// A clone needs exactly the frames that are free.
pub(super) const ENOUGH: Case = Case {
    script: "nephele 1
frames 16
program p
free
clone
free
end
domain p 8 1 open
",
    text: "transcript 1
1:0 free = 6
1:1 clone = begin 2
1:1 commit = 2
daemon = 2
1:2 free = 0
2:2 free = 0
1:3 exit = ended
2:3 exit = ended
frames 16 colours 0 tables 0 spares 0 aside 0 free 16
end ended
",
};

// A clone needs one frame more than are free.
pub(super) const ONE_FRAME_SHORT: Case = Case {
    script: "nephele 1
frames 16
program p
free
clone
free
end
domain p 9 1 open
",
    text: "transcript 1
1:0 free = 5
1:1 clone = no frames 6 5
1:2 free = 5
1:3 exit = ended
frames 16 colours 0 tables 0 spares 0 aside 0 free 16
end ended
",
};

// A clone needs a frame for each leaf table, also for one without mappings.
const LEAF_TABLES: Case = Case {
    script: "nephele 1
frames 17
program p
map 512 4 rw
clone
jfail no
exit
label no
unmap 512
clone
free
end
domain p 8 1 open
",
    text: "transcript 1
1:0 map 512 4 rw = ok
1:1 clone = no frames 7 6
1:2 jfail no = go
1:4 unmap 512 = ok
1:5 clone = no frames 7 6
1:6 free = 6
1:7 exit = ended
frames 17 colours 0 tables 0 spares 0 aside 0 free 17
end ended
",
};

// A leaf table lacks a frame.
const NO_LEAF_TABLE: Case = Case {
    script: "nephele 1
frames 16
program p
free
map 512 4 rw
map 20 4 rw
w 81920 07
r 16384 1
clone
end
domain p 14 1 open
",
    text: "transcript 1
1:0 free = 0
1:1 map 512 4 rw = no noframe
1:2 map 20 4 rw = ok
1:3 w 81920 07 = ok
1:4 r 16384 1 = 07
1:5 clone = no frames 6 0
1:6 exit = ended
frames 16 colours 0 tables 0 spares 0 aside 0 free 16
end ended
",
};

// Commands of handles, where none can be had, and of entries: the first three let domain 0 in.
const HANDLES: Case = Case {
    script: "nephele 1
frames 64
program p
gmap 2 0
gmap 0 0
gmap 2 63
gmap 63 0
gunmap 63
hr 0 4095 1
hw 0 0 07
ungrant 3
ungrant 0
jfail past
exit
label past
clone
gmap 2 0
exit
end
program q
exit
end
domain p 8 1 open
domain q 8 0 open
turns 1 1 1 1 1 1 1 1 1 1 2
",
    text: "transcript 1
1:0 gmap 2 0 = no notyours
1:1 gmap 0 0 = no noentry
1:2 gmap 2 63 = no noentry
1:3 gmap 63 0 = no noentry
1:4 gunmap 63 = no nohandle
1:5 hr 0 4095 1 = no nohandle
1:6 hw 0 0 07 = no nohandle
1:7 ungrant 3 = no nogrant
1:8 ungrant 0 = no busy
1:9 jfail past = go
2:0 exit = ended
1:11 clone = begin 3
1:11 commit = 3
daemon = 3
1:12 gmap 2 0 = no gone
3:12 gmap 2 0 = no gone
1:13 exit = ended
3:13 exit = ended
frames 64 colours 0 tables 0 spares 0 aside 0 free 64
end ended
",
};

pub(super) static CASES: [Case; 9] = [
    LAST_REFERENCE,
    CLONE_OF_A_CHILD,
    ENDS_OF_A_PAGE,
    LIMIT_FIRST,
    ENOUGH,
    ONE_FRAME_SHORT,
    LEAF_TABLES,
    NO_LEAF_TABLE,
    HANDLES,
];
