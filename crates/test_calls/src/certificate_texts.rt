use cert_text::{Cert, CertNode, has_spelling, read_cert, write_cert};
use lin_proof::{Derivation, Ending, Step};
use std::alloc::{AllocError, Global};
use viz_base::{Boxed, List};

const HEAD: &str = "vizlog-cert 1\n\
job 0123456789abcdef0123456789abcdef0123456789abcdef0123456789abcdef\n";

/// Whether a certificate is written as this text.
fn is_written_as(alloc: Global, cert: &Cert, text: &[u8]) -> bool {
    if !has_spelling(cert) {
        return false;
    }
    match write_cert(alloc, cert) {
        Ok(written) => written.as_slice() == text,
        Err(_) => false,
    }
}

/// Whether behind the head the text is that of a node, and is written as it was read.
fn goes_round(alloc: Global, node: &str) -> Result<bool, AllocError> {
    let mut text = String::from_str(alloc, HEAD)?;
    text.push_str(node)?;
    Ok(match read_cert(alloc, text.as_bytes()) {
        Ok(cert) => is_written_as(alloc, &cert, text.as_bytes()),
        Err(_) => false,
    })
}

#[test]
fn nodes_of_all_kinds_go_round(rt: HostRuntime) -> Result<(), AllocError> {
    for node in [
        "def 5 0:1 by 3\nsplit -961 0:1\nvoid\nfact 4\nsum 64:0 1:1\ncut 3:2\ncase -1\nclosed\nclosed\nleaf\nyes 0 1:-1\n\
        closed\nend\n",
        "leaf\nyes -5 3:1 40:-2\nsum 64:0 1:1\ncase 0\nclosed\ncut 2:3\nclosed\nno 7\nclosed\nend\n",
    ] {
        assert!(rt; goes_round(rt.alloc(), node)?);
    }
    Ok(())
}

/// A grid below so many splits.
fn deep_node(alloc: Global, depth: u8) -> Result<String, AllocError> {
    let mut text = String::new(alloc);
    for _ in 0..depth {
        text.push_str("split -1 0:1\ngrid\n")?;
    }
    text.push_str("grid\n")?;
    Ok(text)
}

#[test]
fn deep_nodes_go_round(rt: HostRuntime) -> Result<(), AllocError> {
    let node = deep_node(rt.alloc(), 70)?;
    assert!(rt; goes_round(rt.alloc(), node.as_str())?);
    Ok(())
}

/// A void by one cut, which refutes nothing.
fn cut_by(alloc: Global, divisor: i128) -> Result<Cert, AllocError> {
    let mut steps = List::new(alloc);
    steps.push(Step::Cut(divisor, 0))?;
    let last = Ending::Closed;
    let why = Boxed::new(alloc, Derivation { steps, last })?;
    Ok(Cert {
        form: 1,
        job: [0xab; 32],
        root: CertNode::Void(why),
    })
}

#[test]
fn a_cut_by_0_has_no_text(rt: HostRuntime) -> Result<(), AllocError> {
    for (divisor, has_text) in [(0, false), (1, true)] {
        assert!(rt; has_spelling(&cut_by(rt.alloc(), divisor)?) == has_text);
    }
    Ok(())
}
