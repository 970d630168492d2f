//! Streams of frames, each with how it comes and what becomes of it.
//!
//! A case begins with the end of its streams and how each of them comes: in which pieces, and what fails. Then come the
//! bytes that are sent behind `<`, the steps that are made with their replies behind `=`, and the bytes that are given
//! behind `>`, each line as often as its number says. Not said, a piece has 4,096 bytes, and nothing fails.

/// One stream in pieces of every size, and 10,000 frames in one.
pub(crate) const PIECES: &str = "\
End | piece 1, piece 3, piece 4, piece 5, piece 8, piece 21, piece 4096
<1 0d000000 0a 02000000 0200000000000000
<1 15000000 07 02000000 0200000000000000 0000000000000000
<1 15000000 07 02000000 0200000000000000 4800000000000000
=1 stat 2/2 -> file 0 0
=1 get 2/2 0 -> hole
=1 get 2/2 72 -> refused TooLarge
>1 0e000000 00 01 0000000000000000 00000000
>1 02000000 00 02
>1 01000000 0c

End | piece 4096, piece 3
<10000 15000000 07 02000000 0200000000000000 0000000000000000
=10000 get 2/2 0 -> hole
>10000 02000000 00 02

End
<1 15000000 07 02000000 0200000000000000 0000000000000000
=1 get 2/2 0 -> bytes 1022 0707
>1 02040000 00 01
>1022 00
>1 0707
";

/// Three stats, of which so many are made and so many replies given, where the stream comes so.
pub(crate) const THREE_STATS: &str = "\
0 0 SourceFault | piece 7 read 1, piece 7 read 2, piece 7 read 3
1 1 SourceFault | piece 7 read 4, piece 7 read 5
2 2 SourceFault | piece 7 read 6, piece 7 read 7, piece 7 read 8
3 3 SourceFault | piece 7 read 9
3 3 End | piece 7 read 10, piece 7 read 11, piece 17 write 4
1 0 SinkFault | piece 17 write 1
2 1 SinkFault | piece 17 write 2
3 2 SinkFault | piece 17 write 3
3 0 SinkFault | piece 4096 write 1";

/// Two stats, in a stream that may have so many bytes.
pub(crate) const TWO_STATS: &str = "\
2 2 End | limit 34
1 1 TooLong | limit 33, limit 18, limit 17
0 0 TooLong | limit 16, limit 0";

/// A stat and two gets, of which the first bytes come.
pub(crate) const CUTS: &str = "\
0 0 End | piece 5 first 0
0 0 Cut { at: 0 } | piece 5 first 1, piece 5 first 2, piece 5 first 3, piece 5 first 4, piece 5 first 5, \
piece 5 first 6, piece 5 first 7, piece 5 first 8, piece 5 first 9, piece 5 first 10, piece 5 first 11, \
piece 5 first 12, piece 5 first 13, piece 5 first 14, piece 5 first 15, piece 5 first 16
1 1 End | piece 5 first 17
1 1 Cut { at: 17 } | piece 5 first 18, piece 5 first 19, piece 5 first 20, piece 5 first 21, piece 5 first 22, \
piece 5 first 23, piece 5 first 24, piece 5 first 25, piece 5 first 26, piece 5 first 27, piece 5 first 28, \
piece 5 first 29, piece 5 first 30, piece 5 first 31, piece 5 first 32, piece 5 first 33, piece 5 first 34, \
piece 5 first 35, piece 5 first 36, piece 5 first 37, piece 5 first 38, piece 5 first 39, piece 5 first 40, \
piece 5 first 41";

/// A sink without room, a step without memory, and a body that is longer than 1,100.
pub(crate) const LIMITS: &str = "\
SinkFault | room 10
<1 0d000000 0a 02000000 0200000000000000
=1 stat 2/2 -> file 0 0
>1 0e000000 00 01 00000000

OutOfMemory
<3 15000000 07 02000000 0200000000000000 0000000000000000
=1 get 2/2 0 -> hole
=1 get 2/2 0 -> refused OutOfMemory
>1 02000000 00 02

Bad { at: 0 }
<1 4d040000 08 02000000 0200000000000000 0100000000000000 00000000
<1076 07
";

/// Frames that spell no step.
pub(crate) const NO_STEPS: &str = "\
01000000 0e
00000000
4d040000
ffffffff
01000000 00
0c000000 0a 02000000 02000000000000
0e000000 0a 02000000 0200000000000000 00
0f000000 01 01000000 0300000000000000 02 61
10000000 02 01000000 0300000000000000 01 61 03
11000000 05 01000000 0300000000000000 02 6566 01
18000000 08 02000000 0200000000000000 0100000000000000 0a0000
06000000 0c 03000000 00";

/// What becomes of such a frame between two stats, behind the line that sends it.
pub(crate) const BETWEEN: &str = "\
<1 0d000000 0a 02000000 0200000000000000
=1 stat 2/2 -> refused Stopped
>1 01000000 14
";

/// Steps on names.
pub(crate) const ON_NAMES: &str = "\
End
<1 10000000 01 01000000 0300000000000000 02 6162
=1 look 1/3 ab -> found 5/7 directory
>1 0e000000 00 05000000 0700000000000000 02

End
<1 10000000 02 01000000 0300000000000000 01 61 02
=1 mkdir 1/3 a -> made 6/72057594037927945
>1 0d000000 00 06000000 0900000000000001

End
<1 1b000000 03 01000000 0300000000000000 01 63 04000000 0500000000000000
=1 link 1/3 c 4/5 -> linked
>1 01000000 00

End
<1 0f000000 04 01000000 0300000000000000 01 64
=1 drop 1/3 d -> dropped and removed
>1 02000000 00 01

End
<1 12000000 05 01000000 0300000000000000 02 6566 01 67
=1 rename 1/3 ef g -> renamed
>1 01000000 00

End
<1 15000000 06 01000000 0300000000000000 0100000000000000
=1 list 1/3 1 -> names 1 de/ dead:x
>1 14000000 00 01 0100000000000000 02 02 00 02 6465 01 01 01 78

End
<1 15000000 06 01000000 0300000000000000 0200000000000000
=1 list 1/3 2 -> lost names 5
>1 0a000000 00 02 0500000000000000

End
<1 15000000 06 01000000 0300000000000000 0600000000000000
=1 list 1/3 6 -> no more
>1 02000000 00 03
";

/// Steps on slots, files and elements.
pub(crate) const ON_FILES: &str = "\
End
<1 15000000 07 02000000 0200000000000000 4800000000000000
=1 get 2/2 72 -> lost
>1 02000000 00 03

End
<1 1c000000 08 02000000 0200000000000000 0100000000000000 0a000000 78797a
=1 put 2/2 1 10 78797a -> stored
>1 01000000 00

End
<1 15000000 09 02000000 0200000000000000 8813000000000000
=1 size 2/2 5000 -> resized
>1 01000000 00

End
<1 0d000000 0a 02000000 0200000000000000
=1 stat 2/2 -> file 5000 1
>1 0e000000 00 01 8813000000000000 01000000

End
<1 0d000000 0b 00000000 0000000000000000
=1 flush 0/0 -> flushed
>1 01000000 00

End
<1 05000000 0c 03000000
=1 inode 3 -> used
>1 02000000 00 01

End
<1 09000000 0d 1800000000000000
=1 block 24 -> free
>1 02000000 00 00

End
<1 09000000 0d ffffffffffffffff
=1 block 18446744073709551615 -> refused BadRange
>1 01000000 09
";

/// Refusals, with and without what they keep.
pub(crate) const REFUSALS: &str = "\
End
<1 0d000000 0a 02000000 0200000000000000
=1 stat 2/2 -> refused Missing
>1 01000000 01

End
<1 0d000000 0a 02000000 0200000000000000
=1 stat 2/2 -> refused LostEntry { entry: 258 }
>1 05000000 02 02010000

End
<1 0d000000 0a 02000000 0200000000000000
=1 stat 2/2 -> refused LostSlot { slot: 8 }
>1 09000000 03 0800000000000000

End
<1 0d000000 0a 02000000 0200000000000000
=1 stat 2/2 -> refused Full { needed: 1, free: 2, unverified: 3, next: 4 }
>1 21000000 0f 0100000000000000 0200000000000000 0300000000000000 0400000000000000

End
<1 0d000000 0a 02000000 0200000000000000
=1 stat 2/2 -> refused InodesFull { unverified: 5, next: 6 }
>1 11000000 10 0500000000000000 0600000000000000
";

/// A put of 1,075 bytes, the most that a body has room for, without its step.
pub(crate) const PUT: &str = "\
End
<1 4c040000 08 02000000 0200000000000000 0100000000000000 00000000
<1075 07
>1 01000000 00
";
