//! Which texts are lists of CPUs, and how a set is printed: laws over the definitions alone. Nothing here runs.
ghost use Rattle.std.specs.Prelude.{◌≡◌, false, [], ◌∷◌, codes};
ghost use Rattle.std.specs.FinSet as set;
ghost use Rattle.cpu_list.specs.CanonicalList.{ranges_text};
ghost use Rattle.cpu_list.specs.CanonicalLaws.{TextIsCanonical, OneCanonicalText, CanonicalReadsAgain, TextIsPlain};
ghost use Rattle.cpu_list.specs.CanonicalLaws.{TextLacks, TextIsEmpty};
ghost use Rattle.cpu_list.specs.FirstFault.{first_fault, NoneWhereList, FirstDecides};
ghost use Rattle.cpu_list.specs.ListText.{IsList, IsSetOf, names, ListIsBelow};

use crate::ListErrorKind;

/// A text is a list exactly if it has no first fault, and its first fault is that of the first faulty item.
pub fn first_faults()
    ensures none { NoneWhereList }
    ensures first { FirstDecides }
{}

/// A list under a limit names numbers below that limit alone.
pub fn lists_stay_below()
    ensures { ListIsBelow }
{}

/// The spelling of a set of CPU numbers is canonical, and a set has no other canonical text. It is a list of that set,
/// under each limit up to 2^64 above its members. So reading what was printed gives the set again.
pub fn canonical_texts()
    ensures canonical { TextIsCanonical }
    ensures one { OneCanonicalText }
    ensures reads_again { CanonicalReadsAgain }
{}

/// A printed text has digits, hyphens and commas alone, so no space, colon or line feed stands in it. It is empty
/// exactly if the set is.
pub fn plain_texts()
    ensures plain { TextIsPlain }
    ensures lacks { TextLacks }
    ensures empty { TextIsEmpty }
{}

/// Worked rows of docs/formats.md, "Lists": the definitions, evaluated.
#[tactic(auto, unfolding(crate::specs::ListText::item_of, crate::specs::ListText::number_of, crate::specs::ListText::range_of))]
pub fn worked()
    ensures list { IsList 8 (codes "1-3,5") }
    ensures blanks_and_zeros { IsList 8 (codes " 005 ,, 3-3") }
    ensures set_named { IsSetOf (codes "1-3,5") (set.from_list (1 ∷ 2 ∷ 3 ∷ 5 ∷ [])) }
    ensures not_named { names (codes "1-3,5") 4 ≡ false }
    ensures descends { first_fault 8 (codes "5-3") ≡ Some (record { at = 0; kind = ListErrorKind.Descending }) }
    ensures too_large { first_fault 8 (codes "1,8") ≡ Some (record { at = 2; kind = ListErrorKind.TooLarge }) }
    ensures behind_blanks { first_fault 8 (codes "1, x") ≡ Some (record { at = 3; kind = ListErrorKind.BadItem }) }
    ensures large_before_descends { first_fault 8 (codes "9-3")
        ≡ Some (record { at = 0; kind = ListErrorKind.TooLarge }) }
    ensures printed { ranges_text ((0, 2) ∷ (7, 7) ∷ []) ≡ codes "0-2,7" }
{}
