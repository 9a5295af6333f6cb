//! Calls that the program doesn't make by themselves.

use chi_flit::{Agent, Line, Operation, Task, WordNo};
use chi_replay::{Printable, answers_are_lines, run};
use chi_script::{
    AgentOperation, Command, Fault, check_files_are_lines, check_front_is_enough, checks_are_lines,
    commands_are_lines, headers_are_lines, number, numbers_are_decimal, operations_are_lines,
    printed_commands_are_read, read_command, read_header, read_operation, read_words,
    replay_front_is_enough, replays_are_check_files, small, storm_front_is_enough,
    storms_are_files,
};
use chi_slice::{Audit, Config};
use std::alloc::AllocError;

#[test]
fn commands_are_answered_line_by_line(rt: HostRuntime) {
    let (agent, line) = (Agent(0), Line(0));
    let commands = [
        Command::Audit,
        Command::Totals,
        Command::Flits { agent, line },
        Command::Arrive { agent, line },
        Command::Show { line: Line(1) },
    ];
    let wanted = "ok loads 0 stores 0 coherent\n\
        ok free 1 1 hand 0 0 promised 0 0 owed 0 0\nok none\nrefused 7 NoFlit\n\
        refused 10 OutOfRange\n";
    let config = Config::new(1, 1, 1, 1, 1, 4).expect(&rt, "sizes in their limits");
    let text = run(rt.alloc(), &config, &commands).expect(&rt, "memory for a run");
    assert!(rt; text.as_str() == wanted);
}

// No run is broken.
#[test]
fn a_broken_audit_is_printed(rt: HostRuntime) -> Result<(), AllocError> {
    let broken = Audit {
        loads: 3,
        stores: 1,
        coherent: false,
    };
    let mut printed = String::from_str(rt.alloc(), "audit\n")?;
    broken.print(&mut printed)?;
    assert!(rt; printed.as_str() == "audit\nok loads 3 stores 1 broken");
    Ok(())
}

#[test]
fn words_are_read_alone(rt: HostRuntime) -> Result<(), Fault> {
    assert!(rt; number(b"18446744073709551615") == Some(u64::MAX));
    assert!(rt; small(b"254") == Some(254) && small(b"-1").is_none());
    assert!(rt; read_command(b"show 1") == Some(Command::Show { line: Line(1) }));
    let words: [&[u8]; 7] = [b"node", b"2", b"4", b"1", b"1", b"1", b"4"];
    let config = read_header(&words).expect(&rt, "sizes in their limits");
    let mut words = Vec::new(rt.alloc());
    read_words(&mut words, b"share 1 2 3")?;
    let operation = Operation {
        line: Line(2),
        task: Task::Share(WordNo(3)),
    };
    let agent = Agent(1);
    let wanted = AgentOperation { agent, operation };
    assert!(rt; read_operation(&config, &words) == Some(wanted));
    Ok(())
}

#[test]
fn the_laws_are_called(_rt: HostRuntime) {
    answers_are_lines();
    check_files_are_lines();
    check_front_is_enough();
    checks_are_lines();
    commands_are_lines();
    headers_are_lines();
    numbers_are_decimal();
    operations_are_lines();
    printed_commands_are_read();
    replay_front_is_enough();
    replays_are_check_files();
    storm_front_is_enough();
    storms_are_files();
}
