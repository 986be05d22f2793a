use sccs_base::{Bytes, Memory, Words};
use sccs_words::*;
use std::alloc::Global;
use std::test::Fail;

// the place of a command's utility among all, from 1
fn utility_number(command: &Command) -> u64 {
    match command {
        Command::Admin(_, _) => 1,
        Command::Get(_, _) => 2,
        Command::Delta(_, _) => 3,
        Command::Unget(_, _) => 4,
        Command::Sact(_) => 5,
        Command::Rmdel(_, _) => 6,
        Command::Prs(_, _) => 7,
        Command::Val(_) => 8,
        Command::What(_, _) => 9,
        Command::Recover(_) => 10,
        Command::Import(_) => 11,
        Command::Batch => 12,
        Command::Soak(_) => 13,
        Command::Tell(_) => 14,
        Command::Check(_) => 15,
        Command::Cdc(_, _) => 16,
        Command::Group => 17,
    }
}

// the words of a line, which blanks part
fn words_of(alloc: Global, line: &[u8]) -> Result<Words, Memory> {
    let mut words = Words::new(alloc);
    for word in line.split(|byte| *byte == b' ') {
        words.push(Bytes::new(alloc, word)?)?;
    }
    Ok(words)
}

// 0 and the number of the utility, or the kind of the fault and the number of its word
fn kind_and_number(read: Result<Command, WordsFault>) -> (u8, u64) {
    match read {
        Ok(command) => (0, utility_number(&command)),
        Err(WordsFault::Usage(usage)) => (usage.kind, usage.word),
        Err(WordsFault::Memory) => (99, 0),
    }
}

#[test]
fn commands_and_faults(rt: HostRuntime) -> Result<(), Fail> {
    let examples: [(&[u8], u8, u64); 25] = [
        (b"admin -n -fb -ymade s.a", 0, 1),
        (b"get -e -r1.2 -i1.3 s.a", 0, 2),
        (b"delta -s -yfirst s.a", 0, 3),
        (b"unget -r1.2 s.a", 0, 4),
        (b"sact s.a s.b", 0, 5),
        (b"rmdel -r 1.2 s.a", 0, 6),
        (b"prs -d:I: s.a", 0, 7),
        (b"val -mx -", 0, 8),
        (b"what -s f", 0, 9),
        (b"recover s.a", 0, 10),
        (b"import s.a s.b", 0, 11),
        (b"batch", 0, 12),
        (b"group", 0, 17),
        (b"get -l -g s.a", 0, 2),
        (b"get -L -p s.a", 5, 3),
        (b"soak 2000", 0, 13),
        (b"tell s.a s.b", 0, 14),
        (b"check s.a", 0, 15),
        (b"cdc -r1.2 -y s.a", 0, 16),
        (b"cdc -r1.2 s.a", 8, 4),
        (b"get -k -q s.a", 2, 3),
        (b"get -e -c75 s.a", 5, 3),
        (b"delta s.a b", 6, 3),
        (b"rmdel s.a", 8, 3),
        (b"import s.a .", 6, 3),
    ];
    for (line, kind, number) in examples {
        let words = words_of(rt.alloc(), line)?;
        let found = kind_and_number(read_words(rt.alloc(), &words));
        assert_eq!(rt; found, (kind, number));
    }
    Ok(())
}
