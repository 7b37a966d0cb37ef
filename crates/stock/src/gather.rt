ghost use Rattle.std.specs.Prelude.{◌≡◌, ◌≤◌, length, Some};
ghost use Rattle.ledger.specs.Ledger.{piece_of};
ghost use Rattle.ledger.specs.Table.{question_of, grade_held};
ghost use Rattle.stock.specs.Gathering.{extended, Room};
ghost use Rattle.stock.specs.Rows.{bundle_in, is_part, as_question};

use crate::row::CulmRow;
use ledger::culm::Culm;
use ledger::member::Member;
use quantities::basis::DesignBasis;
use quantities::bundle::Bundle;

// The bundle with one culm more, or of one culm.
fn extend(bundle: Option<Bundle>, culm: Culm, member: &Member) -> Bundle
    requires { Room bundle }
    ensures { as_question (Some result) member.now ≡ extended (as_question bundle member.now) (piece_of culm) member.now }
{
    match bundle {
        Some(mut more) => {
            more.add(culm.readings).unwrap();
            more
        }
        None => Bundle::of(
            culm.readings,
            DesignBasis {
                grade: culm.strengths,
                class: member.factors,
                duration: member.duration,
                length: member.length,
            },
        ),
    }
}

// The bundle of `member` among the rows; none where it has no culm. That it is small is asked: rows do not know it, a stock does.
pub fn gather(rows: &[CulmRow], member: &Member) -> Option<Bundle>
    requires { length (bundle_in member.now.number rows.now) ≤ 16 }
    ensures { as_question result member.now ≡ question_of (bundle_in member.now.number rows.now) member.now }
{
    // A loop, since its invariant says that each culm finds room; the closure of a fold would have to be told.
    let mut bundle = None;
    for row in rows {
        if row.is_part(member.number) {
            bundle = Some(extend(bundle, row.culm, member));
        }
    }
    bundle
}

// How many culms a bundle has, and the grade number of its first.
#[derive(Clone, Copy)]
pub struct Extent {
    pub count: usize,
    pub grade: Option<u32>,
}

// How many of the rows are of the bundle of `member`.
fn count_parts(rows: &[CulmRow], member: u32) -> usize
    ensures { result ≡ length (bundle_in member rows.now) }
{
    rows.iter().filter(|row| row.is_part(member)).count()
}

// The extent of the bundle of `member` among the rows. They are read once: the count begins at the row that tells the grade.
pub fn extent_of(rows: &[CulmRow], member: u32) -> Extent
    ensures count { result.count ≡ length (bundle_in member rows.now) }
    ensures grade { result.grade ≡ grade_held (bundle_in member rows.now) }
{
    match rows.iter().position(|row| row.is_part(member)) {
        Some(at) => Extent {
            count: count_parts(&rows[at..], member),
            grade: Some(rows[at].culm.grade),
        },
        None => Extent {
            count: 0,
            grade: None,
        },
    }
}
