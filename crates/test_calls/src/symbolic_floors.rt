use cert_text::{Cert, CertNode, read_cert};
use lin_proof::{Answer, Row};
use std::test::Fail;
use sym_calc::{Path, Sym};
use viz_base::Rect;
use viz_calc::{Calc, Halt};

const RANGE: Rect = Rect {
    wl: 320,
    wh: 400,
    sl: 16,
    sh: 16,
    hl: 600,
    hh: 600,
};

/// Answers that a third of the width is 6826 units at least, and 8533 at most. Facts 4 and 5 are those of its floor:
/// `0 0:1 2:-3` and `2 0:-1 2:3`; fact 6 is the denied row.
const TEXT: &str = "vizlog-cert 1\n\
job 0123456789abcdef0123456789abcdef0123456789abcdef0123456789abcdef\n\
leaf\n\
yes -6826 0:21 2:1\nfact 0\nfact 5\nfact 6\nsum 64:0 1:1 3:2\nclosed\n\
yes 8533 0:-21 2:-1\nfact 1\nfact 4\nfact 6\nsum 64:0 1:1 3:2\nclosed\n\
end\n";

/// The answers of a certificate of one leaf.
fn answers(cert: &Cert) -> &[Answer] {
    match &cert.root {
        CertNode::Leaf(answers) => answers.as_slice(),
        _ => &[],
    }
}

/// A third of the width of the viewport.
fn third_of_the_width(sym: &mut Sym<'_>) -> Result<Row, Halt> {
    let width = sym.width()?;
    sym.scale_floor(&width, 1, 3)
}

/// A third of the width of the viewport, and whether it lies between these bounds.
fn third(sym: &mut Sym<'_>) -> Result<(Row, bool), Halt> {
    let third = third_of_the_width(sym)?;
    let low = sym.lit(6826)?;
    let high = sym.lit(8533)?;
    let is_between = sym.le(&low, &third)? && sym.le(&third, &high)?;
    Ok((third, is_between))
}

#[test]
fn a_third_of_the_width_is_a_floor(rt: HostRuntime) -> Result<(), Fail> {
    let path = Path::new(rt.alloc(), 1, RANGE)?;
    let Ok(cert) = read_cert(rt.alloc(), TEXT.as_bytes()) else {
        return Err(Fail::new("no certificate"));
    };
    let mut sym = Sym::new(&path, answers(&cert));
    let Ok((third, is_between)) = third(&mut sym) else {
        return Err(Fail::new("a comparison is open"));
    };
    assert!(rt; third.k == 0 && third.terms.as_slice() == [(0, 21), (2, 1)].as_slice());
    assert!(rt; is_between && sym.left() == 0);
    Ok(())
}

/// Whether a third of the width lies between these bounds, where that is answered or told.
fn is_told_between(sym: &mut Sym<'_>, low: i128, high: i128) -> Result<bool, Halt> {
    let third = third_of_the_width(sym)?;
    let low = sym.lit(low)?;
    let high = sym.lit(high)?;
    Ok(sym.at_most(&low, &third)? && sym.at_most(&third, &high)?)
}

#[test]
fn what_a_leaf_was_told_is_not_asked_again(rt: HostRuntime) -> Result<(), Fail> {
    let path = Path::new(rt.alloc(), 1, RANGE)?;
    let Ok(cert) = read_cert(rt.alloc(), TEXT.as_bytes()) else {
        return Err(Fail::new("no certificate"));
    };
    let mut sym = Sym::new(&path, answers(&cert));
    let asked = is_told_between(&mut sym, 6826, 8533) == Ok(true);
    let again = is_told_between(&mut sym, 6826, 8533) == Ok(true);
    let farther = is_told_between(&mut sym, -1, 9000) == Ok(true);
    assert!(rt; asked && again && farther && sym.left() == 0);
    // A nearer bound is asked, and what one leaf was told counts for nothing in another.
    assert!(rt; is_told_between(&mut sym, 6827, 8533) == Err(Halt::Open));
    let mut other = Sym::new(&path, &[]);
    assert!(rt; is_told_between(&mut other, 6826, 8533) == Err(Halt::Open));
    Ok(())
}
