//! Which offers lend their CPUs as a set: those of many ranges, however they came into the list. Contracts say only
//! that what is lent is right.
ghost use Rattle.std.specs.Prelude.{◌≤◌};

use certificate::{Offer, Offers};
use certificate_text::read_problem;
use cpu_list::print;
use cpu_set::IdSet;
use std::alloc::{AllocError, Global};
use std::test::Fail;

/// Offers of more ranges than this lend a set.
const MOST: u16 = 64;

/// So many CPUs, each a range of its own.
fn every_second(count: u16) -> IdSet
    requires { count ≤ 1024 }
{
    let mut cpus = IdSet::empty();
    for n in 0..count {
        cpus.insert(2 * n);
    }
    cpus
}

/// Whether the offer at a place lends just this set.
fn lends(offers: &Offers, at: usize, cpus: &IdSet) -> bool {
    at < offers.len() && offers.wide(at) == Some(cpus)
}

/// Whether the offer at a place lends a set.
fn lent(offers: &Offers, at: usize) -> bool {
    at < offers.len() && offers.wide(at).is_some()
}

/// Offers at places 0 and 1: of as many ranges as lend no set, and of one more.
fn add_both(offers: &mut Offers) -> Result<(), AllocError> {
    offers.push(Offer {
        weight: 10,
        cpus: every_second(MOST),
    })?;
    offers.push(Offer {
        weight: 20,
        cpus: every_second(MOST + 1),
    })
}

#[test]
fn offers_of_more_than_64_ranges_lend_a_set(rt: HostRuntime) -> Result<(), Fail> {
    let mut offers = Offers::new(rt.alloc());
    assert_eq!(rt; offers.has_wide(), false);
    add_both(&mut offers)?;
    assert_eq!(rt; offers.has_wide(), true);
    assert_eq!(rt; lends(&offers, 0, &every_second(MOST)), false);
    assert_eq!(rt; lends(&offers, 1, &every_second(MOST + 1)), true);
    let same = offers.copy(rt.alloc())?;
    assert_eq!(rt; lends(&same, 1, &every_second(MOST + 1)), true);
    Ok(())
}

#[test]
fn offers_of_another_list_lend_a_set_as_they_did_there(rt: HostRuntime) -> Result<(), Fail> {
    let mut offers = Offers::new(rt.alloc());
    add_both(&mut offers)?;
    let mut others = Offers::new(rt.alloc());
    if offers.len() == 2 {
        others.push_from(5, &offers, 0)?;
        assert_eq!(rt; others.has_wide(), false);
        others.push_from(6, &offers, 1)?;
        others.push_without(7, &offers, 1, &IdSet::empty())?;
        others.push_without(8, &offers, 1, &every_second(1))?;
    }
    assert_eq!(rt; lends(&others, 1, &every_second(MOST + 1)), true);
    assert_eq!(rt; lends(&others, 2, &every_second(MOST + 1)), true);
    assert_eq!(rt; others.len(), 4);
    assert_eq!(rt; lent(&others, 3), false);
    Ok(())
}

/// A problem's text, whose one row has the offers of [`add_both`].
fn text_of_both(alloc: Global) -> Result<String, AllocError> {
    let mut text = String::from_str(alloc, "numarun-problem 1\nrow a 1 10:")?;
    text.push_str(print(alloc, &every_second(MOST))?.as_str())?;
    text.push_str(" 20:")?;
    text.push_str(print(alloc, &every_second(MOST + 1))?.as_str())?;
    text.push_str("\nend\n")?;
    Ok(text)
}

#[test]
fn offers_of_a_text_lend_a_set_as_others_do(rt: HostRuntime) -> Result<(), Fail> {
    let text = text_of_both(rt.alloc())?;
    let mut is_read = false;
    if let Ok(problem) = read_problem(rt.alloc(), text.as_bytes()) {
        for row in &problem.rows {
            assert_eq!(rt; row.offers.len(), 2);
            assert_eq!(rt; lent(&row.offers, 0), false);
            assert_eq!(rt; lends(&row.offers, 1, &every_second(MOST + 1)), true);
            is_read = true;
        }
    }
    assert_eq!(rt; is_read, true);
    Ok(())
}
