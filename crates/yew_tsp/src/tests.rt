ghost use Rattle.std.specs.Prelude.{IfOk, IfSome};
ghost use Rattle.yew_tsp.specs.Nodes.{root_of, IsNode};

use crate::{TourNode, Tours, read};
use std::alloc::Global;
use std::test::Fail;
use yew_laws::{Memory, Path, Problem, rebuild};
use yew_lines::{push_line_end, push_number, push_spaced, push_text};
use yew_text::{FileEnd, TextKind};

/// The weights of four cities, row by row.
const FOUR: &[u32] = &[0, 10, 15, 20, 10, 0, 35, 25, 15, 35, 0, 30, 20, 25, 30, 0];

/// The four cities, by whole rows.
const FULL: &str =
    "NAME: four\nTYPE: TSP\nDIMENSION: 4\nEDGE_WEIGHT_TYPE: EXPLICIT\nEDGE_WEIGHT_FORMAT: FULL_MATRIX\nEDGE_WEIGHT_SECTION\n0 10 15 20\n10 0 35 25\n15 35 0 30\n20 25 30 0\nEOF\n";

/// The parts of a file of the four cities before its first lines, behind them, and its rows.
const REST: &str =
    "EDGE_WEIGHT_TYPE: EXPLICIT\nEDGE_WEIGHT_FORMAT: FULL_MATRIX\nEDGE_WEIGHT_SECTION\n";

const HEAD: &str = "NAME: four\nTYPE: TSP\nDIMENSION: 4\n";

const ROWS: &str = "0 10 15 20\n10 0 35 25\n15 35 0 30\n20 25 30 0\n";

/// A file of two cities that are nearer in one direction.
const TWO: &str =
    "NAME: two\nTYPE: ATSP\nDIMENSION: 2\nEDGE_WEIGHT_TYPE: EXPLICIT\nEDGE_WEIGHT_FORMAT: FULL_MATRIX\nEDGE_WEIGHT_SECTION\n0 3\n4 0\nEOF\n";

/// A text of three parts.
fn joined(alloc: Global, head: &str, middle: &str, tail: &str) -> Result<Vec<u8>, Memory> {
    let mut text = Vec::new(alloc);
    push_text(&mut text, head.as_bytes())?;
    push_text(&mut text, middle.as_bytes())?;
    push_text(&mut text, tail.as_bytes())?;
    Ok(text)
}

/// Whether a file gives the four cities.
fn gives_four(alloc: Global, bytes: &[u8]) -> bool {
    match read(alloc, bytes) {
        Ok(problem) => problem.weights() == FOUR,
        Err(_) => false,
    }
}

/// The kind and the line of a refusal.
fn refusal(alloc: Global, bytes: &[u8]) -> Option<(TextKind, u64)> {
    match read(alloc, bytes) {
        Err(FileEnd::Refused(fault)) => Some((fault.kind, fault.line)),
        _ => None,
    }
}

/// The number past its limit, and the limit.
fn past_limit(alloc: Global, bytes: &[u8]) -> Option<(u64, u64)> {
    match read(alloc, bytes) {
        Err(FileEnd::TooLarge { number, limit }) => Some((number, limit)),
        _ => None,
    }
}

#[test]
fn reads_each_format(rt: HostRuntime) -> Result<(), Fail> {
    let table = [
        FULL,
        "NAME: four\nTYPE: TSP\nDIMENSION: 4\nEDGE_WEIGHT_TYPE: EXPLICIT\nEDGE_WEIGHT_FORMAT: UPPER_ROW\nEDGE_WEIGHT_SECTION\n10 15\n20 35 25 30\nEOF\n",
        "NAME: four\nTYPE: TSP\nDIMENSION: 4\nEDGE_WEIGHT_TYPE: EXPLICIT\nEDGE_WEIGHT_FORMAT: LOWER_ROW\nEDGE_WEIGHT_SECTION\n10\n15 35\n20 25 30\nEOF\n",
        "NAME: four\nTYPE: TSP\nDIMENSION: 4\nEDGE_WEIGHT_TYPE: EXPLICIT\nEDGE_WEIGHT_FORMAT: LOWER_DIAG_ROW\nEDGE_WEIGHT_SECTION\n0\n10 0\n15 35 0\n20 25 30 0\nEOF\n",
        "NAME : four\nTYPE : TSP (made by hand)\nCOMMENT : four cities\nDIMENSION : 4\nEDGE_WEIGHT_TYPE : EXPLICIT\nEDGE_WEIGHT_FORMAT : UPPER_DIAG_ROW\nDISPLAY_DATA_TYPE : TWOD_DISPLAY\nEDGE_WEIGHT_SECTION\n0 10 15 20\n0 35 25 0 30\n0\nDISPLAY_DATA_SECTION\n1 1.5 2.0\n2 3.0 2.5\n3 0.0 0.5\n4 4.5 4.0\nEOF\n",
        "\r\n  EDGE_WEIGHT_FORMAT:FULL_MATRIX\r\nCOMMENT: a : b\r\nEDGE_WEIGHT_TYPE\t:EXPLICIT\r\nCOMMENT :\r\nNODE_COORD_TYPE: NO_COORDS\r\nDIMENSION:0004\r\nTYPE : ATSP\r\nEDGE_WEIGHT_SECTION :\r\n7 10 15 20 10 8 35 25\r\n15 35 9 30 20 25 30 2147483647 EOF: 8 x",
    ];
    for text in &table {
        assert!(rt; gives_four(rt.alloc(), text.as_bytes()), "{text}");
    }
    for ending in &["", "EOF", "EOF: \u{ff}", "DISPLAY_DATA_SECTION:\n7\n"] {
        let rows = joined(rt.alloc(), HEAD, REST, ROWS)?;
        let mut text = rows;
        push_text(&mut text, ending.as_bytes())?;
        assert!(rt; gives_four(rt.alloc(), text.as_slice()), "{ending}");
    }
    match read(rt.alloc(), TWO.as_bytes()) {
        Ok(problem) => assert_eq!(rt; problem.weights(), [0, 3, 4, 0].as_slice()),
        Err(_) => assert!(rt; false),
    }
    Ok(())
}

#[test]
fn refuses_heads(rt: HostRuntime) -> Result<(), Fail> {
    let table = [
        ("NAME: four\nTYPE: TSP\n", TextKind::BadLine, 5),
        (
            "NAME: four\nTYPE: TSP\nDIMENSION: 1\n",
            TextKind::BadLine,
            3,
        ),
        (
            "NAME: four\nTYPE: TSP\nDIMENSION: 4 5\n",
            TextKind::NotNumber,
            3,
        ),
        (
            "NAME: four\nTYPE: TSP\nDIMENSION:\n",
            TextKind::NotNumber,
            3,
        ),
        ("TYPE: TSP\nDIMENSION: 4x\n", TextKind::NotNumber, 2),
        (
            "TYPE: TSP\nDIMENSION: 9223372036854775808\n",
            TextKind::TooBig,
            2,
        ),
        (
            "TYPE: TSP\nDIMENSION: 9223372036854775808 5\n",
            TextKind::NotNumber,
            2,
        ),
        (
            "TYPE: TSP\nDIMENSION: 9223372036854775807\n",
            TextKind::EndsEarly,
            10,
        ),
        ("TYPE: TSP\nDIMENSION: 61\n", TextKind::EndsEarly, 10),
        ("TYPE: TSP\nDIMENSION: 3\n", TextKind::Surplus, 8),
        (
            "NAME: four\nTYPE: SOP\nDIMENSION: 4\n",
            TextKind::BadLine,
            2,
        ),
        ("TYPE:\nDIMENSION: 4\n", TextKind::BadLine, 1),
        ("TYPE: TSP\nTYPE: TSP\nDIMENSION: 4\n", TextKind::BadLine, 2),
        (
            "DIMENSION: 4\nDIMENSION: x\nTYPE: TSP\n",
            TextKind::BadLine,
            2,
        ),
        ("NAME four\nTYPE: TSP\nDIMENSION: 4\n", TextKind::BadLine, 1),
        ("DIMENSION x\nTYPE: TSP\n", TextKind::BadLine, 1),
        (
            "TYPE: TSP\nCAPACITY: 3\nDIMENSION: 4\n",
            TextKind::BadLine,
            2,
        ),
        (": 4\nTYPE: TSP\nDIMENSION: 4\n", TextKind::BadLine, 1),
        (
            "TYPE: TSP\nEDGE_WEIGHT_TYPE: EUC_2D\nDIMENSION: 4\n",
            TextKind::BadLine,
            2,
        ),
        (
            "TYPE: TSP\nEDGE_WEIGHT_FORMAT: LOWER_COL\nDIMENSION: 4\n",
            TextKind::BadLine,
            2,
        ),
        (
            "TYPE: TSP\nEDGE_WEIGHT_SECTION: 3\nDIMENSION: 4\n",
            TextKind::BadLine,
            2,
        ),
        ("TYPE: TSP\nEOF\nDIMENSION: 4\n", TextKind::EndsEarly, 2),
        (
            "TYPE: TSP\n\nEOF : x\nDIMENSION: 4\n",
            TextKind::EndsEarly,
            3,
        ),
    ];
    for row in &table {
        let text = joined(rt.alloc(), row.0, REST, ROWS)?;
        assert_eq!(rt;
            refusal(rt.alloc(), text.as_slice()),
            Some((row.1, row.2)),
            "{}",
            row.0
        );
    }
    assert_eq!(rt; refusal(rt.alloc(), b""), Some((TextKind::EndsEarly, 1)));
    assert_eq!(rt;
        refusal(rt.alloc(), b"NAME: x\n\n"),
        Some((TextKind::EndsEarly, 3))
    );
    Ok(())
}

#[test]
fn refuses_matrices(rt: HostRuntime) -> Result<(), Fail> {
    let table = [
        (
            "0 10 15 20\n10 0 35 25\n15 35 0 30\n20 25 30\nEOF\n",
            TextKind::EndsEarly,
            11,
        ),
        ("0 10 15 20\n10", TextKind::EndsEarly, 8),
        (
            "0 10 15 20\n10 DISPLAY_DATA_SECTION: 0\n",
            TextKind::EndsEarly,
            8,
        ),
        ("-1 10 15 20\n", TextKind::NotNumber, 7),
        ("0 10 15 20\n\n10 0 35 EOFX\n", TextKind::NotNumber, 9),
        ("9223372036854775808 10\n", TextKind::TooBig, 7),
        ("2147483648 10 15 20\n", TextKind::EndsEarly, 8),
        (
            "0 10 15 20\n10 0 35 25\n15 35 0 30\n20 25 30 0\n7\n",
            TextKind::Surplus,
            11,
        ),
        (
            "0 10 15 20\n10 0 35 25\n15 35 0 30\n20 25 30 0 EOFX\n",
            TextKind::Surplus,
            10,
        ),
    ];
    for row in &table {
        let text = joined(rt.alloc(), HEAD, REST, row.0)?;
        assert_eq!(rt;
            refusal(rt.alloc(), text.as_slice()),
            Some((row.1, row.2)),
            "{}",
            row.0
        );
    }
    let missing =
        "NAME: four\nTYPE: TSP\nDIMENSION: 4\nEDGE_WEIGHT_TYPE: EXPLICIT\nEDGE_WEIGHT_FORMAT: UPPER_ROW\nEDGE_WEIGHT_SECTION\n10 15 20\n35 25\nEOF\n";
    assert_eq!(rt;
        refusal(rt.alloc(), missing.as_bytes()),
        Some((TextKind::EndsEarly, 9))
    );
    Ok(())
}

/// A file of so many cities whose weights are all one number.
fn equal_weights(alloc: Global, cities: u64, weight: u64) -> Result<Vec<u8>, Memory> {
    let mut text = Vec::new(alloc);
    push_text(&mut text, b"TYPE: TSP\nDIMENSION: ")?;
    push_number(&mut text, cities)?;
    push_line_end(&mut text)?;
    push_text(&mut text, REST.as_bytes())?;
    for _row in 0..cities {
        for _column in 0..cities {
            push_spaced(&mut text, weight)?;
        }
        push_line_end(&mut text)?;
    }
    Ok(text)
}

#[test]
fn judges_limits(rt: HostRuntime) -> Result<(), Fail> {
    let many = equal_weights(rt.alloc(), 61, 2147483648)?;
    assert_eq!(rt; past_limit(rt.alloc(), many.as_slice()), Some((61, 60)));
    let few = equal_weights(rt.alloc(), 60, 2147483648)?;
    assert_eq!(rt;
        past_limit(rt.alloc(), few.as_slice()),
        Some((2147483648, 2147483647))
    );
    let diagonal = joined(
        rt.alloc(),
        HEAD,
        REST,
        "0 10 15 20\n10 0 35 25\n15 35 0 30\n20 25 30 2147483648\n",
    )?;
    assert_eq!(rt;
        past_limit(rt.alloc(), diagonal.as_slice()),
        Some((2147483648, 2147483647))
    );
    let most = equal_weights(rt.alloc(), 60, 2147483647)?;
    match read(rt.alloc(), most.as_slice()) {
        Ok(problem) => {
            let root = problem.root(rt.alloc())?;
            assert_eq!(rt; (1u64 << 37) - problem.bound(&root), 60 * 2147483647);
        }
        Err(_) => assert!(rt; false),
    }
    Ok(())
}

/// The node at a path.
fn node_at(alloc: Global, problem: &Tours, numbers: &[u32]) -> Result<Option<TourNode>, Memory>
    requires { IsNode problem.now (root_of problem.now) }
    ensures { IfOk result (λ found. IfSome found (IsNode problem.now)) }
{
    let mut path = Path::empty(alloc, 8)?;
    for number in numbers {
        path = path.child(*number)?;
    }
    rebuild(alloc, problem, &path)
}

/// The worth and the bound at a path.
fn judged_at(alloc: Global, problem: &Tours, numbers: &[u32]) -> Result<Option<(u64, u64)>, Memory>
    requires { IsNode problem.now (root_of problem.now) }
{
    match node_at(alloc, problem, numbers)? {
        Some(node) => Ok(Some((problem.worth(&node), problem.bound(&node)))),
        None => Ok(None),
    }
}

#[test]
fn judges_lists(rt: HostRuntime) -> Result<(), Fail> {
    let four = read(rt.alloc(), FULL.as_bytes())?;
    let table = [
        ([].as_slice(), Some((0, 137438953417))),
        ([0].as_slice(), Some((0, 137438953417))),
        ([2].as_slice(), Some((0, 137438953407))),
        ([0, 1].as_slice(), Some((0, 137438953402))),
        ([0, 1, 0].as_slice(), Some((137438953392, 137438953392))),
        ([0, 0, 0].as_slice(), Some((137438953377, 137438953377))),
        ([0, 2].as_slice(), None),
        ([0, 1, 0, 0].as_slice(), None),
    ];
    for row in &table {
        assert_eq!(rt; judged_at(rt.alloc(), &four, row.0)?, row.1);
    }
    Ok(())
}

#[test]
fn tells_weights_and_lists(rt: HostRuntime) -> Result<(), Fail> {
    let two = read(rt.alloc(), TWO.as_bytes())?;
    assert_eq!(rt; two.cities(), 2);
    if two.cities() == 2 {
        assert_eq!(rt; two.weight(1, 2), 3);
        assert_eq!(rt; two.weight(2, 1), 4);
        assert_eq!(rt; two.weight(2, 2), 0);
    }
    let four = read(rt.alloc(), FULL.as_bytes())?;
    match node_at(rt.alloc(), &four, &[2, 0])? {
        Some(node) => assert_eq!(rt; node.list().as_slice(), [1, 4, 2].as_slice()),
        None => assert!(rt; false),
    }
    Ok(())
}

/// The text of the node at a path, where it has some worth; with a gap, that of a tour with it.
fn text_at(
    alloc: Global,
    problem: &Tours,
    numbers: &[u32],
    gap: Option<u64>,
) -> Result<Option<Vec<u8>>, Memory>
    requires { IsNode problem.now (root_of problem.now) }
{
    let Some(node) = node_at(alloc, problem, numbers)? else {
        return Ok(None);
    };
    let worth = problem.worth(&node);
    if worth == 0 {
        return Ok(None);
    }
    let text = match gap {
        Some(gap) => problem.near_text(alloc, worth, gap, &node)?,
        None => problem.best_text(alloc, worth, &node)?,
    };
    Ok(Some(text))
}

#[test]
fn spells_answers(rt: HostRuntime) -> Result<(), Fail> {
    let four = read(rt.alloc(), FULL.as_bytes())?;
    match text_at(rt.alloc(), &four, &[0, 1, 0], None)? {
        Some(text) => {
            assert_eq!(rt; text.as_slice(), b"best 80\ntour 1 2 4 3\n".as_slice());
        }
        None => assert!(rt; false),
    }
    match text_at(rt.alloc(), &four, &[0, 1, 0], Some(15))? {
        Some(text) => {
            assert_eq!(rt;
                text.as_slice(),
                b"found 80\nwithin 15\ntour 1 2 4 3\n".as_slice()
            );
        }
        None => assert!(rt; false),
    }
    assert!(rt; text_at(rt.alloc(), &four, &[0, 1], None)?.is_none());
    let two = read(rt.alloc(), TWO.as_bytes())?;
    match text_at(rt.alloc(), &two, &[0], None)? {
        Some(text) => assert_eq!(rt; text.as_slice(), b"best 7\ntour 1 2\n".as_slice()),
        None => assert!(rt; false),
    }
    Ok(())
}
