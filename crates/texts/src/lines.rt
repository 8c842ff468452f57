// Texts about lines and frames, and about the first fault.

// Pieces that are lines, and pieces that are none.
pub const TEXTS: [(&[u8], &[u8]); 40] = [
    // A file of no line makes a blank sheet, whose one order is the empty one. An empty line is no line.
    (b"", b"2000000000E0\n"),
    (b"\n", b"2F010B0001C4\n"),
    (b"0100010001FD\n", b"200100000000DF\n"),
    (b"0100010001FD\n\n", b"2F010B0002C3\n"),
    (b"\n0100010001FD\n", b"2F010B0001C4\n"),
    // Each line ends with 0A, the last one too, and nothing stands before it.
    (b"0100010001FD", b"2F010B0001C4\n"),
    (b"0100010001FD\n05", b"2F010B0002C3\n"),
    (b"0100010001FD\n0500FB", b"2F010B0002C3\n"),
    (b"0100010001FD\r\n", b"2F010B0001C4\n"),
    (b"0100010001FD \r\n", b"2F010B0001C4\n"),
    (b"0100010001FD\r0500FB\n", b"2F010B0001C4\n"),
    // A note has bytes from 20 to 7E, and may be empty. A blank is before it, and no other byte.
    (b"0100010001FD \n", b"200100000000DF\n"),
    (b"0100010001FD  \n", b"200100000000DF\n"),
    (b"0100010001FD  a~\n", b"200100000000DF\n"),
    (b"0100010001FD ~ \n", b"200100000000DF\n"),
    (b"0100010001FD \x1F\n", b"2F010B0001C4\n"),
    (b"0100010001FD \x7F\n", b"2F010B0001C4\n"),
    (b"0100010001FD a\x00\n", b"2F010B0001C4\n"),
    (b"0100010001FD \xA0b\n", b"2F010B0001C4\n"),
    (b"0100010001FD a\tb\n", b"2F010B0001C4\n"),
    (b"0100010001FD\t\n", b"2F010B0001C4\n"),
    (b"0100010001FDnote\n", b"2F010B0001C4\n"),
    // What stands in a note is not read as a frame.
    (b"0100010001FD 0100010001FD\n", b"200100000000DF\n"),
    (b"0100010001FD 0500FA\n", b"200100000000DF\n"),
    // Pairs begin the line, and are of the digits 0 to 9 and A to F.
    (b" 0100010001FD\n", b"2F010B0001C4\n"),
    (b" \n", b"2F010B0001C4\n"),
    (b"\xEF\xBB\xBF0100010001FD\n", b"2F010B0001C4\n"),
    (b"0x0100010001FD\n", b"2F010B0001C4\n"),
    (b"0100010001fd\n", b"2F010B0001C4\n"),
    (b"0100010001Fd\n", b"2F010B0001C4\n"),
    (b"01000100/1FD\n", b"2F010B0001C4\n"),
    (b"01000100:1FD\n", b"2F010B0001C4\n"),
    (b"01000100@1FD\n", b"2F010B0001C4\n"),
    (b"01000100G1FD\n", b"2F010B0001C4\n"),
    // Their count of digits is even: neither the last digit nor the first is dropped.
    (b"0\n", b"2F010B0001C4\n"),
    (b"0100010001F\n", b"2F010B0001C4\n"),
    (b"0100010001FD0\n", b"2F010B0001C4\n"),
    (b"00100010001FD\n", b"2F010B0001C4\n"),
    (b"0100010 001FD\n", b"2F010B0001C4\n"),
    (b"0 100010001FD\n", b"2F010B0001C4\n"),
];

// Frames, and pairs that are none.
pub const FRAMES: [(&[u8], &[u8]); 40] = [
    // The bytes add up to 0 modulo 256: one less and one more are refused. A blank ends the frame, whatever comes behind it.
    (b"0100010001FC\n", b"2F020C0001C2\n"),
    (b"0100010001FE\n", b"2F020C0001C2\n"),
    (b"01\n", b"2F020C0001C2\n"),
    (b"FF\n", b"2F020C0001C2\n"),
    (b"01 00010001FD\n", b"2F020C0001C2\n"),
    (b"01000100 01FD\n", b"2F020C0001C2\n"),
    (b"00 0100010001FD\n", b"2F020D0001C1\n"),
    // A sum of twice 256, with a closing byte 00.
    (b"010001FFFF00\n", b"200100000000DF\n"),
    // 11 comes before 12 and 13, and 12 before 13.
    (b"0100010001FE \x7F\n", b"2F010B0001C4\n"),
    (b"0100010001fe\n", b"2F010B0001C4\n"),
    (b"08F8\t\n", b"2F010B0001C4\n"),
    (b"00\r\n", b"2F010B0001C4\n"),
    (b"08F7\n", b"2F020C0001C2\n"),
    (b"FF0001FD\n", b"2F020C0001C2\n"),
    (b"010001000100FE\n", b"2F020C0001C2\n"),
    // No frame is of another kind than 01 to 07; 20 and 2F begin answers.
    (b"00\n", b"2F020D0001C1\n"),
    (b"0000\n", b"2F020D0001C1\n"),
    (b"0000010001FE\n", b"2F020D0001C1\n"),
    (b"08F8\n", b"2F020D0001C1\n"),
    (b"0800F8\n", b"2F020D0001C1\n"),
    (b"FF01\n", b"2F020D0001C1\n"),
    (b"2000000000E0\n", b"2F020D0001C1\n"),
    (b"2F010B0001C4\n", b"2F020D0001C1\n"),
    // A frame of each kind with a byte less, and with a byte more before its closing byte.
    (b"01000100FE\n", b"2F020D0001C1\n"),
    (b"010001000100FD\n", b"2F020D0001C1\n"),
    (b"0100010001FD\n0100010001FD\n0200FE\n", b"2F020D0003BF\n"),
    (
        b"0100010001FD\n0100010001FD\n02000100FD\n",
        b"2F020D0003BF\n",
    ),
    (b"0100010001FD\n03000009F4\n", b"2F020D0002C0\n"),
    (b"0100010001FD\n030000000009F4\n", b"2F020D0002C0\n"),
    (b"0100010001FD\n040000000C0000070000E9\n", b"2F020D0002C0\n"),
    (
        b"0100010001FD\n040000000C00000700000A00DF\n",
        b"2F020D0002C0\n",
    ),
    (b"0100010001FD\n05FB\n", b"2F020D0002C0\n"),
    (b"0100010001FD\n050000FB\n", b"2F020D0002C0\n"),
    (b"0100010001FD\n06000000050000F5\n", b"2F020D0002C0\n"),
    (b"0100010001FD\n060000000500000900EC\n", b"2F020D0002C0\n"),
    (b"0100010001FD\n0700F9\n", b"2F020D0002C0\n"),
    (b"0100010001FD\n07000002F7\n", b"2F020D0002C0\n"),
    // A byte 00 behind a closing byte; two frames in one line; a kind alone.
    (b"0100010001FD00\n", b"2F020D0001C1\n"),
    (b"0100010001FD0100010001FD\n", b"2F020D0001C1\n"),
    (b"01FF\n", b"2F020D0001C1\n"),
];

// Files with several faults, of which that of the first line counts, and the number of that line.
pub const FIRST: [(&[u8], &[u8]); 13] = [
    // Neither a layer nor a cause comes before a line.
    (b"0410000000000000000001EB\n\n", b"2F04010001CB\n"),
    (b"0100010001FD\n020000FE\n0500fb\n", b"2F03040002C8\n"),
    (b"0100010001FD\n08F8\n0500FA\n\n", b"2F020D0002C0\n"),
    (b"0500FA\n020000FE\n070000F9\n", b"2F020C0001C2\n"),
    (b"0500FB\n0100010001FD\n", b"2F03010001CC\n"),
    (b"070011E8\n0100000000FF\n", b"2F04080001C4\n"),
    (b"0100000000FF\n070011E8\n", b"2F03030001CA\n"),
    // What comes before the fault does not count, a note neither.
    (
        b"0100010001FD\n0300000001FC\n0100010001FD\n0301000001FB no order\n070300F6 w\n",
        b"2F04080005C0\n",
    ),
    (
        b"0100010001FD\n0500FB\n0100010001FD\n0501FA\n020001FD\n0400000009000001000002F0\n0601000001000001F7\n020100FD\n",
        b"2F03040008C2\n",
    ),
    // A fault in line 16 and in line 20, and a piece behind 19 lines.
    (
        b"0100010001FD\n0100010001FD\n0100010001FD\n0500FB\n0500FB\n0500FB\n0500FB\n0500FB\n0500FB\n020001FD\n020001FD\n\
        020001FD\n020001FD\n020001FD\n020001FD\n0503F8\n",
        b"2F03010010BD\n",
    ),
    (
        b"0100010001FD\n0100010001FD\n0501FA\n0501FA\n0501FA\n0501FA\n0501FA\n0501FA\n0501FA\n0501FA\n020001FD\n020001FD\n\
        020001FD\n020001FD\n020001FD\n020001FD\n020001FD\n020001FD\n020001FD\n070000F9\n",
        b"2F04080014B1\n",
    ),
    (
        b"0100010001FD\n0100010001FD\n0501FA\n0501FA\n0501FA\n0501FA\n0501FA\n0501FA\n0501FA\n0501FA\n020001FD\n020001FD\n\
        020001FD\n020001FD\n020001FD\n020001FD\n020001FD\n020001FD\n020001FD\n0501FA",
        b"2F010B0014B1\n",
    ),
    (
        b"0100010001FD\n0100010001FD\n0501FA\n0501FA\n0501FA\n0501FA\n0501FA\n0501FA\n0501FA\n0501FA\n020001FD\n020001FD\n\
        020001FD\n020001FD\n020001FD\n020001FD\n020001FD\n020001FD\n020001FD\n0501FA \n",
        b"20020001000000DD\n",
    ),
];
