//! Calls that no program makes: the last serial, the walk over a set, shortages of rows in any order, one process
//! table, and a list of calls over a kernel of which no write is made to fail.
use certificate::{CheckFault, Offer, Offers, Problem, Row, check_shortage};
use cpu_list::read;
use cpu_set::{CPU_LIMIT, IdSet};
use cpuset_tree::{Group, Tree, TreeFault};
use faults::OrMemory;
use kernel_doubles::make_calls;
use kernel_model::{Call, Kernel, ModelKernel, Reply};
use proctable::{LAST_PID, ProcFault, ProcTable};
use std::alloc::{AllocError, Global};
use std::test::Fail;

fn set(text: &str) -> IdSet {
    read(text.as_bytes(), CPU_LIMIT).unwrap_or(IdSet::empty())
}

#[test]
fn the_last_serial_is_given_once(rt: HostRuntime) -> Result<(), Fail> {
    let mut tree = Tree::new(rt.alloc(), set("0-3"), set("0"), u64::MAX - 1)?;
    let root = tree.root();
    assert_eq!(rt; root.serial, u64::MAX - 1);
    assert_eq!(rt;
        tree.make(root, "x"),
        Err(OrMemory::Fault(TreeFault::NoSerials))
    );
    Ok(())
}

#[test]
fn a_set_is_walked_in_rising_order(rt: HostRuntime) {
    let walked = set("4095,1024,64,0,1022,63,1023");
    let mut next = walked.first();
    for n in [0, 63, 64, 1022, 1023, 1024, 4095] {
        assert_eq!(rt; next, Some(n));
        next = walked.next_after(n);
    }
    assert_eq!(rt; next, None);
    assert_eq!(rt; walked.next_after(u16::MAX), None);
    assert_eq!(rt; IdSet::empty().first(), None);
}

#[test]
fn a_process_table(rt: HostRuntime) -> Result<(), Fail> {
    let (here, there) = (Group { key: 0, serial: 0 }, Group { key: 1, serial: 1 });
    let mut table = ProcTable::new(rt.alloc(), 2);
    assert_eq!(rt; table.spawn(here), Ok(2));
    assert_eq!(rt; table.fork(2), Ok(3));
    assert_eq!(rt; table.fork(3), Ok(4));
    assert_eq!(rt; table.group_of(4), Some(here));
    assert_eq!(rt; table.group_of(5), None);
    assert_eq!(rt; table.exit(3), Ok(()));
    assert_eq!(rt; (table.count_in(here), table.count_in(there)), (2, 0));
    assert_eq!(rt; table.exit(2), Ok(()));
    assert_eq!(rt; table.count_in(here), 0);
    assert_eq!(rt; table.exit(2), Err(ProcFault::NoProcess));
    let mut last = ProcTable::new(rt.alloc(), LAST_PID);
    assert_eq!(rt; last.spawn(here), Ok(4_194_303));
    assert_eq!(rt; last.spawn(here), Err(OrMemory::Fault(ProcFault::NoPids)));
    Ok(())
}

/// Two rows that ask for two and for one of CPUs 1 and 2.
fn two_rows(alloc: Global) -> Result<Problem, AllocError> {
    let mut rows = Vec::new(alloc);
    for demand in [2, 1] {
        let mut offers = Offers::new(alloc);
        offers.push(Offer {
            weight: 10,
            cpus: set("1-2"),
        })?;
        rows.push(Row {
            id: String::new(alloc),
            demand,
            offers,
        })?;
    }
    Ok(Problem { rows })
}

#[test]
fn members_of_a_shortage(rt: HostRuntime) -> Result<(), Fail> {
    let problem = two_rows(rt.alloc())?;
    assert_eq!(rt; check_shortage(&problem, &[0, 1]), Ok((3, 2)));
    assert_eq!(rt;
        check_shortage(&problem, &[1, 0]),
        Err(CheckFault::BadProblem)
    );
    assert_eq!(rt;
        check_shortage(&problem, &[0, 2]),
        Err(CheckFault::BadProblem)
    );
    assert_eq!(rt; check_shortage(&problem, &[]), Err(CheckFault::NoShortage));
    Ok(())
}

#[test]
fn a_list_of_calls_over_the_model(rt: HostRuntime) -> Result<(), Fail> {
    let (all, reserved) = (set("0-7"), set("0"));
    if reserved.is_empty() || !reserved.is_subset(&all) || !all.is_subset(&all) {
        return Err(Fail::from("no machine"));
    }
    let mut kernel = ModelKernel::new(rt.alloc(), all, reserved, all, set("0-1"), 2)?;
    let root = kernel.root();
    let calls = [
        Call::MakeGroup(root, String::from_str(rt.alloc(), "g")?),
        Call::Spawn(root),
        Call::Fork(2),
        Call::Online,
    ];
    let replies = make_calls(rt.alloc(), &mut kernel, &calls)?;
    let pids = [Ok(Reply::Pid(2)), Ok(Reply::Pid(3)), Ok(Reply::Ids(all))];
    assert_eq!(rt; &replies.as_slice()[1..], pids.as_slice());
    Ok(())
}
