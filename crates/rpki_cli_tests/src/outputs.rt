//! Each call of a run that fails, and what is in place then.

use rpki_cli::give::{Made, Outputs, deliver};
use rpki_cli::memory::Memory;
use rpki_cli::ready::is_ready;
use std::alloc::{AllocError, Global};
use std::test::Fail;

/// A run: its outputs, the calls that fail, by their bits, the status that it has, the files afterwards, what was
/// printed, and what standard error was told.
struct Row {
    name: &'static str,
    output: Option<&'static str>,
    metrics: Option<&'static str>,
    log: Option<&'static str>,
    plan: u64,
    status: u8,
    files: &'static str,
    printed: &'static str,
    told: &'static str,
}

const BEFORE: &str = "list=l log=e numbers=n ";

const LOGGED: &str = "list=l log=eE numbers=n ";

// The calls of a whole run with both outputs and a log are: look at the list, look at the metrics, open the log, add to
// it, tell, make the list, make the metrics, place the metrics, place the list. A line that tells of a failure, and
// what takes a file away, are calls too.
const ROWS: &[Row] = &[
    Row {
        name: "no call",
        output: Some("list"),
        metrics: Some("numbers"),
        log: Some("log"),
        plan: 0,
        status: 0,
        files: "list=L log=eE numbers=N ",
        printed: "",
        told: "told;",
    },
    Row {
        name: "look at the list",
        output: Some("list"),
        metrics: Some("numbers"),
        log: Some("log"),
        plan: 1,
        status: 2,
        files: BEFORE,
        printed: "",
        told: "p: list: cannot be written\n",
    },
    Row {
        name: "look at the list, and its line",
        output: Some("list"),
        metrics: Some("numbers"),
        log: Some("log"),
        plan: 3,
        status: 2,
        files: BEFORE,
        printed: "",
        told: "",
    },
    Row {
        name: "look at the metrics",
        output: Some("list"),
        metrics: Some("numbers"),
        log: Some("log"),
        plan: 2,
        status: 2,
        files: BEFORE,
        printed: "",
        told: "p: numbers: cannot be written\n",
    },
    Row {
        name: "open the log",
        output: Some("list"),
        metrics: Some("numbers"),
        log: Some("log"),
        plan: 4,
        status: 2,
        files: BEFORE,
        printed: "",
        told: "p: log: cannot be written\n",
    },
    Row {
        name: "add to the log",
        output: Some("list"),
        metrics: Some("numbers"),
        log: Some("log"),
        plan: 8,
        status: 2,
        files: BEFORE,
        printed: "",
        told: "p: log: cannot be written\n",
    },
    Row {
        name: "add to the log, and its line",
        output: Some("list"),
        metrics: Some("numbers"),
        log: Some("log"),
        plan: 24,
        status: 2,
        files: BEFORE,
        printed: "",
        told: "",
    },
    Row {
        name: "tell",
        output: Some("list"),
        metrics: Some("numbers"),
        log: Some("log"),
        plan: 16,
        status: 2,
        files: LOGGED,
        printed: "",
        told: "",
    },
    Row {
        name: "make the list",
        output: Some("list"),
        metrics: Some("numbers"),
        log: Some("log"),
        plan: 32,
        status: 2,
        files: LOGGED,
        printed: "",
        told: "told;p: list: cannot be written\n",
    },
    Row {
        name: "make the list, and its line",
        output: Some("list"),
        metrics: Some("numbers"),
        log: Some("log"),
        plan: 96,
        status: 2,
        files: LOGGED,
        printed: "",
        told: "told;",
    },
    Row {
        name: "make the metrics",
        output: Some("list"),
        metrics: Some("numbers"),
        log: Some("log"),
        plan: 64,
        status: 2,
        files: LOGGED,
        printed: "",
        told: "told;p: numbers: cannot be written\n",
    },
    Row {
        name: "make the metrics, and take the list away",
        output: Some("list"),
        metrics: Some("numbers"),
        log: Some("log"),
        plan: 192,
        status: 2,
        files: "list=l list.new=L log=eE numbers=n ",
        printed: "",
        told: "told;p: numbers: cannot be written\n",
    },
    Row {
        name: "place the metrics",
        output: Some("list"),
        metrics: Some("numbers"),
        log: Some("log"),
        plan: 128,
        status: 2,
        files: LOGGED,
        printed: "",
        told: "told;p: numbers: cannot be written\n",
    },
    Row {
        name: "place the list",
        output: Some("list"),
        metrics: Some("numbers"),
        log: Some("log"),
        plan: 256,
        status: 3,
        files: "list=l log=eE numbers=N ",
        printed: "",
        told: "told;p: list: cannot be written; the metrics are\n",
    },
    Row {
        name: "place the list, and its line",
        output: Some("list"),
        metrics: Some("numbers"),
        log: Some("log"),
        plan: 1280,
        status: 3,
        files: "list=l log=eE numbers=N ",
        printed: "",
        told: "told;",
    },
    Row {
        name: "no call, a list alone",
        output: Some("list"),
        metrics: None,
        log: None,
        plan: 0,
        status: 0,
        files: "list=L log=e numbers=n ",
        printed: "",
        told: "told;",
    },
    Row {
        name: "make a list alone",
        output: Some("list"),
        metrics: None,
        log: None,
        plan: 4,
        status: 2,
        files: BEFORE,
        printed: "",
        told: "told;p: list: cannot be written\n",
    },
    Row {
        name: "place a list alone",
        output: Some("list"),
        metrics: None,
        log: None,
        plan: 8,
        status: 2,
        files: BEFORE,
        printed: "",
        told: "told;p: list: cannot be written\n",
    },
    Row {
        name: "no call, a new list",
        output: Some("new"),
        metrics: None,
        log: None,
        plan: 0,
        status: 0,
        files: "list=l log=e new=L numbers=n ",
        printed: "",
        told: "told;",
    },
    Row {
        name: "no call, printed",
        output: None,
        metrics: None,
        log: None,
        plan: 0,
        status: 0,
        files: BEFORE,
        printed: "L",
        told: "told;",
    },
    Row {
        name: "print",
        output: None,
        metrics: None,
        log: None,
        plan: 2,
        status: 2,
        files: BEFORE,
        printed: "",
        told: "told;p: standard output: cannot be written\n",
    },
    Row {
        name: "no call, printed, with metrics",
        output: None,
        metrics: Some("numbers"),
        log: None,
        plan: 0,
        status: 0,
        files: "list=l log=e numbers=N ",
        printed: "L",
        told: "told;",
    },
    Row {
        name: "make the metrics of what is printed",
        output: None,
        metrics: Some("numbers"),
        log: None,
        plan: 4,
        status: 2,
        files: BEFORE,
        printed: "",
        told: "told;p: numbers: cannot be written\n",
    },
    Row {
        name: "print, with metrics",
        output: None,
        metrics: Some("numbers"),
        log: None,
        plan: 16,
        status: 3,
        files: "list=l log=e numbers=N ",
        printed: "",
        told: "told;p: standard output: cannot be written; the metrics are\n",
    },
    Row {
        name: "one name for both",
        output: Some("list"),
        metrics: Some("list"),
        log: None,
        plan: 0,
        status: 2,
        files: BEFORE,
        printed: "",
        told: "p: list: is the output's file too\n",
    },
];

fn machine(alloc: Global, plan: u64) -> Result<Memory, AllocError> {
    let mut machine = Memory::new(alloc, plan);
    for (name, text) in [("list", "l"), ("numbers", "n"), ("log", "e")] {
        let key = String::from_str(alloc, name)?;
        machine.files.insert(key, text.as_bytes().to_vec(alloc)?)?;
    }
    Ok(machine)
}

/// Each file of the machine, as `name=text`, in the names' order.
fn shown(alloc: Global, machine: &Memory) -> Result<String, AllocError> {
    let mut text = String::new(alloc);
    for (name, octets) in machine.files.iter() {
        text.push_str(name.as_str())?;
        text.push_str("=")?;
        text.push_str(str::from_utf8(octets.as_slice()).unwrap_or("?"))?;
        text.push_str(" ")?;
    }
    Ok(text)
}

fn status_of(machine: &mut Memory, outputs: &Outputs<'_>, status: u8) -> u8 {
    if !is_ready(machine, "p", outputs) {
        return 2;
    }
    let made = Made {
        text: b"L",
        counts: b"N",
        entry: b"E",
        lines: b"told;",
        status,
    };
    deliver(machine, "p", outputs, &made)
}

#[test]
fn each_call_fails_in_turn(rt: HostRuntime) -> Result<(), Fail> {
    let alloc = rt.alloc();
    for row in ROWS {
        let mut machine = machine(alloc, row.plan)?;
        let outputs = Outputs {
            output: row.output,
            metrics: row.metrics,
            log: row.log,
        };
        let status = status_of(&mut machine, &outputs, 0);
        assert_eq!(rt; status, row.status, "{}", row.name);
        assert_eq!(rt; shown(alloc, &machine)?.as_str(), row.files, "{}", row.name);
        assert_eq!(rt;
            machine.printed.as_slice(),
            row.printed.as_bytes(),
            "{}",
            row.name
        );
        assert_eq!(rt;
            machine.told.as_slice(),
            row.told.as_bytes(),
            "{}",
            row.name
        );
    }
    Ok(())
}

// Of the outputs, in each of the 4,096 ways in which twelve calls can fail.
#[test]
fn both_or_none_or_the_metrics(rt: HostRuntime) -> Result<(), Fail> {
    let alloc = rt.alloc();
    let outputs = Outputs {
        output: Some("list"),
        metrics: Some("numbers"),
        log: None,
    };
    for plan in 0..4096u64 {
        let mut machine = machine(alloc, plan)?;
        let status = status_of(&mut machine, &outputs, 1);
        let files = shown(alloc, &machine)?;
        let (list, numbers) = match status {
            1 => ("list=L ", "numbers=N "),
            3 => ("list=l ", "numbers=N "),
            _ => ("list=l ", "numbers=n "),
        };
        assert!(rt; files.as_str().contains(list), "plan {plan}");
        assert!(rt; files.as_str().contains(numbers), "plan {plan}");
        assert!(rt; status == 1 || status == 2 || status == 3, "plan {plan}");
    }
    Ok(())
}

// Of a run that ends with 2 nothing is written, and all is told.
#[test]
fn a_failing_run_writes_nothing(rt: HostRuntime) -> Result<(), Fail> {
    let alloc = rt.alloc();
    let mut machine = machine(alloc, 0)?;
    let outputs = Outputs {
        output: Some("list"),
        metrics: Some("numbers"),
        log: Some("log"),
    };
    assert_eq!(rt; status_of(&mut machine, &outputs, 2), 2);
    assert_eq!(rt; shown(alloc, &machine)?.as_str(), LOGGED);
    assert_eq!(rt; machine.told.as_slice(), b"told;".as_slice());
    Ok(())
}
