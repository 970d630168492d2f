//! Commands, each with its steps, the replies that come to them, and its line.

/// Commands on one file, on names and on several files.
pub(crate) const ACCEPTED: &str = "\
make /d/f
look 1/1 d -> found 4/9 directory
make 4/9 f -> made 5/11
made

mkdir /d
mkdir 1/1 d -> made 5/11
made

put @ 0 616263
put 2/2 0 0 616263 -> stored
put 3

get /f 0 3
look 1/1 f -> found 3/7 file
stat 3/7 -> file 9 1
get 3/7 0 -> bytes 0 616263646566676869
got bytes:616263

size @ 5000
size 2/2 5000 -> resized
sized 5000

stat /d
look 1/1 d -> found 4/9 directory
stat 4/9 -> directory 0 1
stat dir 0 1

list /
list 1/1 0 -> names 1 f d/ dead:x
list 1/1 2 -> lost names 5
list 1/1 6 -> no more
names f d/ /dead:x /lost:5

link /f /d/g
look 1/1 f -> found 3/7 file
look 1/1 d -> found 4/9 directory
link 4/9 g 3/7 -> linked
linked

drop /d/f
look 1/1 d -> found 4/9 directory
drop 4/9 f -> dropped and removed
dropped

rename /d/f g
look 1/1 d -> found 4/9 directory
rename 4/9 f g -> renamed
renamed

fsync /d/f
look 1/1 d -> found 4/9 directory
look 4/9 f -> found 3/7 file
flush 3/7 -> flushed
synced
";

/// Puts that begin inside a slot and past the last; gets over slots of all kinds.
pub(crate) const BYTES: &str = "\
put @ 1022 aabbccdd
put 2/2 0 1022 aabb -> stored
put 2/2 1 0 ccdd -> stored
put 4

put @ 73728 04
put 2/2 72 0 04 -> refused TooLarge
TooLarge stored 0

put @ 18446744073709551615 0102
put 2/2 18014398509481983 1023 01 -> stored
put 2/2 18014398509481984 0 02 -> refused TooLarge
TooLarge stored 1

get @ 1020 6
stat 2/2 -> file 1026 1
get 2/2 0 -> bytes 1022 aabb
get 2/2 1 -> bytes 0 ccdd
got bytes:0000aabb bytes:ccdd

get @ 0 5000
stat 2/2 -> file 5000 1
get 2/2 0 -> hole
get 2/2 1 -> hole
get 2/2 2 -> hole
get 2/2 3 -> hole
get 2/2 4 -> hole
got hole:1024 hole:1024 hole:1024 hole:1024 hole:904

get @ 2047 3
stat 2/2 -> file 5000 1
get 2/2 1 -> hole
get 2/2 2 -> bytes 0 ff
got hole:1 bytes:ff00

get @ 8191 2
stat 2/2 -> file 73728 1
get 2/2 7 -> bytes 0 01
get 2/2 8 -> bytes 0 02
got bytes:00 bytes:02

get @ 0 10
stat 2/2 -> file 3 1
get 2/2 0 -> lost
got lost:3
";

/// Steps that find the disk full at first: each is repeated while less is unverified.
pub(crate) const REPEATED: &str = "\
put @ 0 01
put 2/2 0 0 01 -> refused Full { needed: 1, free: 0, unverified: 40, next: 24 }
block 24 -> free
put 2/2 0 0 01 -> refused Full { needed: 1, free: 0, unverified: 39, next: 24 }
block 24 -> free
put 2/2 0 0 01 -> stored
put 1

put @ 1023 0102
put 2/2 0 1023 01 -> stored
put 2/2 1 0 02 -> refused Full { needed: 1, free: 0, unverified: 40, next: 24 }
block 24 -> free
put 2/2 1 0 02 -> refused Full { needed: 1, free: 0, unverified: 40, next: 24 }
Full { needed: 1, free: 0, unverified: 40, next: 24 } stored 1

make /a
make 1/1 a -> refused InodesFull { unverified: 2, next: 3 }
inode 3 -> free
make 1/1 a -> refused Full { needed: 1, free: 0, unverified: 9, next: 24 }
block 24 -> free
make 1/1 a -> refused InodesFull { unverified: 1, next: 3 }
inode 3 -> free
make 1/1 a -> made 5/11
made

make /a
make 1/1 a -> refused InodesFull { unverified: 0, next: 3 }
InodesFull { unverified: 0, next: 3 }

put @ 1023 0102
put 2/2 0 1023 01 -> stored
put 2/2 1 0 02 -> refused Full { needed: 1, free: 0, unverified: 40, next: 24 }
block 24 -> refused ReadFault
ReadFault stored 1

put @ 0 01
put 2/2 0 0 01 -> refused Full { needed: 1, free: 0, unverified: 40, next: 24 }
block 24 -> free
put 2/2 0 0 01 -> refused OutOfMemory
no memory
";

/// Commands of which a step is refused: it ends them.
pub(crate) const REFUSED: &str = "\
put /f 0 01
look 1/1 f -> refused Missing
Missing stored 0

get / 0 1
stat 1/1 -> directory 0 1
IsDirectory

get @ 1000 100
stat 2/2 -> file 2000 1
get 2/2 0 -> hole
get 2/2 1 -> refused ReadFault
ReadFault

list /
list 1/1 0 -> names 3 f d/ dead:x
list 1/1 4 -> names 3 f d/ dead:x
names f d/ /dead:x

link /f /d/g
look 1/1 f -> found 3/7 file
look 1/1 d -> refused Missing
Missing
";

/// Moves, which end with a drop or with the step that is refused.
pub(crate) const MOVES: &str = "\
move /a /d/b
look 1/1 a -> found 3/7 file
look 1/1 d -> found 4/9 directory
flush 3/7 -> flushed
link 4/9 b 3/7 -> linked
flush 3/7 -> flushed
drop 1/1 a -> dropped and removed
moved

move /d/a /b
look 1/1 d -> found 4/9 directory
look 4/9 a -> found 3/7 file
flush 3/7 -> flushed
link 1/1 b 3/7 -> refused Full { needed: 1, free: 0, unverified: 2, next: 24 }
block 24 -> free
link 1/1 b 3/7 -> linked
flush 3/7 -> flushed
drop 4/9 a -> dropped
moved

move /a /b
look 1/1 a -> refused Missing
Missing

move /d /e
look 1/1 d -> found 4/9 directory
flush 4/9 -> flushed
link 1/1 e 4/9 -> refused IsDirectory
IsDirectory

move /a /a
look 1/1 a -> found 3/7 file
flush 3/7 -> flushed
link 1/1 a 3/7 -> refused Exists
Exists

move /a /b
look 1/1 a -> found 3/7 file
flush 3/7 -> flushed
link 1/1 b 3/7 -> linked
flush 3/7 -> refused WriteFault
WriteFault

move /a /b
look 1/1 a -> found 3/7 file
flush 3/7 -> flushed
link 1/1 b 3/7 -> linked
flush 3/7 -> refused OutOfMemory
no memory
";
