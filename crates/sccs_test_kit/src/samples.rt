/// One delta that holds no line.
pub const EMPTY: &[u8] =
    b"\x01h07227\n\x01s 00000/00000/00000\n\x01d D 1.1 21/03/04 05:06:07 ann 1 0\n\
        \x01c date and time created 21/03/04 05:06:07 by ann\n\x01e\n\x01u\n\x01U\n\x01t\n\x01T\n\x01I 1\n\x01E 1\n";

/// One delta of two lines.
pub const TWO_LINES: &[u8] =
    b"\x01h08096\n\x01s 00002/00000/00000\n\x01d D 1.1 21/03/04 05:06:07 ann 1 0\n\
        \x01c date and time created 21/03/04 05:06:07 by ann\n\x01e\n\x01u\n\x01U\n\x01t\n\x01T\n\x01I 1\none\n\
        two %I%\n\x01E 1\n";

/// The same with a second delta, which inserted a line.
pub const SECOND: &[u8] =
    b"\x01h12386\n\x01s 00001/00000/00002\n\x01d D 1.2 21/03/04 05:08:00 ann 2 1\n\x01c second\n\x01e\n\
        \x01s 00002/00000/00000\n\x01d D 1.1 21/03/04 05:06:07 ann 1 0\n\
        \x01c date and time created 21/03/04 05:06:07 by ann\n\x01e\n\x01u\n\x01U\n\x01t\n\x01T\n\x01I 1\none\n\
        \x01I 2\nmid\n\x01E 2\ntwo %I%\n\x01E 1\n";

/// The same without the second delta.
pub const REMOVED: &[u8] =
    b"\x01h11748\n\x01s 00001/00000/00002\n\x01d R 1.2 21/03/04 05:08:00 ann 2 1\n\x01c second\n\x01e\n\
        \x01s 00002/00000/00000\n\x01d D 1.1 21/03/04 05:06:07 ann 1 0\n\
        \x01c date and time created 21/03/04 05:06:07 by ann\n\x01e\n\x01u\n\x01U\n\x01t\n\x01T\n\x01I 1\none\n\
        two %I%\n\x01E 1\n";

/// SECOND with the flag d, which names 1.1.
pub const DEFAULT: &[u8] =
    b"\x01h12807\n\x01s 00001/00000/00002\n\x01d D 1.2 21/03/04 05:08:00 ann 2 1\n\x01c second\n\x01e\n\
        \x01s 00002/00000/00000\n\x01d D 1.1 21/03/04 05:06:07 ann 1 0\n\
        \x01c date and time created 21/03/04 05:06:07 by ann\n\x01e\n\x01u\n\x01U\n\x01f d 1.1\n\x01t\n\x01T\n\x01I 1\n\
        one\n\x01I 2\nmid\n\x01E 2\ntwo %I%\n\x01E 1\n";

/// Two deltas of the trunk and one of a branch.
pub const BRANCHED: &[u8] =
    b"\x01h13003\n\x01s 00001/00000/00002\n\x01d D 1.1.1.1 99/12/31 23:59:59 bob 3 1\n\x01c\n\x01e\n\
        \x01s 00001/00001/00001\n\x01d D 1.2 75/03/01 00:00:00 ann 2 1\n\x01c two\n\x01e\n\x01s 00002/00000/00000\n\
        \x01d D 1.1 75/02/28 23:59:59 ann 1 0\n\x01c one\n\x01e\n\x01u\nann\nbob\n\x01U\n\x01f e 0\n\x01t\n\x01T\n\
        \x01I 1\na\n\x01D 2\nb\n\x01E 2\n\x01I 2\nB\n\x01E 2\n\x01I 3\nc\n\x01E 3\n\x01E 1\n";

/// Releases 1 and 3, and two branches at 1.2; the text of each version is its SID.
pub const RELEASES: &[u8] =
    b"\x01h29839\n\x01s 00001/00000/00000\n\x01d D 1.2.2.1 21/03/04 05:06:07 ann 7 2\n\x01c 1.2.2.1\n\x01e\n\
        \x01s 00001/00000/00000\n\x01d D 1.2.1.2 21/03/04 05:06:06 ann 6 5\n\x01c 1.2.1.2\n\x01e\n\
        \x01s 00001/00000/00000\n\x01d D 1.2.1.1 21/03/04 05:06:05 ann 5 2\n\x01c 1.2.1.1\n\x01e\n\
        \x01s 00001/00000/00000\n\x01d D 3.2 21/03/04 05:06:04 ann 4 3\n\x01c 3.2\n\x01e\n\x01s 00001/00000/00000\n\
        \x01d D 3.1 21/03/04 05:06:03 ann 3 2\n\x01c 3.1\n\x01e\n\x01s 00001/00000/00000\n\
        \x01d D 1.2 21/03/04 05:06:02 ann 2 1\n\x01c 1.2\n\x01e\n\x01s 00001/00000/00000\n\
        \x01d D 1.1 21/03/04 05:06:01 ann 1 0\n\x01c 1.1\n\x01e\n\x01u\n\x01U\n\x01f b\n\x01t\n\x01T\n\x01I 1\n\
        \x01D 2\n1.1\n\x01E 2\n\x01I 2\n\x01D 3\n\x01D 5\n\x01D 7\n1.2\n\x01E 7\n\x01E 5\n\x01E 3\n\x01E 2\n\x01I 3\n\
        \x01D 4\n3.1\n\x01E 4\n\x01E 3\n\x01I 4\n3.2\n\x01E 4\n\x01I 5\n\x01D 6\n1.2.1.1\n\x01E 6\n\x01E 5\n\x01I 6\n\
        1.2.1.2\n\x01E 6\n\x01I 7\n1.2.2.1\n\x01E 7\n\x01E 1\n";

/// 1.1, 1.2, 1.2.1.1, which leaves out 1.2, and 1.3, with a line of each.
pub const LISTED: &[u8] =
    b"\x01h15750\n\x01s 00001/00000/00000\n\x01d D 1.3 21/03/04 05:06:04 ann 4 2\n\x01c 1.3\n\x01e\n\
        \x01s 00001/00000/00000\n\x01d D 1.2.1.1 21/03/04 05:06:03 ann 3 2\n\x01x 2\n\x01c 1.2.1.1\n\x01e\n\
        \x01s 00001/00000/00000\n\x01d D 1.2 21/03/04 05:06:02 ann 2 1\n\x01c 1.2\n\x01e\n\x01s 00001/00000/00000\n\
        \x01d D 1.1 21/03/04 05:06:01 ann 1 0\n\x01c 1.1\n\x01e\n\x01u\n\x01U\n\x01t\n\x01T\n\x01I 1\n1.1\n\x01E 1\n\
        \x01I 2\n1.2\n\x01E 2\n\x01I 3\n1.2.1.1\n\x01E 3\n\x01I 4\n1.3\n\x01E 4\n";

/// An RCS file of two revisions.
pub const RCS_FILE: &[u8] =
    b"head\t1.2;\naccess;\nsymbols;\nlocks; strict;\ncomment\t@# @;\n\n\n1.2\n\
        date\t2021.03.04.05.08.00;\tauthor ann;\tstate Exp;\nbranches;\nnext\t1.1;\n\n1.1\n\
        date\t2021.03.04.05.06.07;\tauthor ann;\tstate Exp;\nbranches;\nnext\t;\n\n\ndesc\n@@\n\n\n1.2\nlog\n@second\n\
        @\ntext\n@one\nmid\ntwo\n@\n\n\n1.1\nlog\n@first\n@\ntext\n@d2 1\n@\n";

/// The s-file that is imported from it.
pub const IMPORTED: &[u8] =
    b"\x01h09631\n\x01s 00001/00000/00002\n\x01d D 1.2 21/03/04 05:08:00 ann 2 1\n\x01c second\n\x01e\n\
        \x01s 00002/00000/00000\n\x01d D 1.1 21/03/04 05:06:07 ann 1 0\n\x01c first\n\x01e\n\x01u\n\x01U\n\x01t\n\
        \x01T\n\x01I 1\none\n\x01E 1\n\x01I 2\nmid\n\x01E 2\n\x01I 1\ntwo\n\x01E 1\n";
