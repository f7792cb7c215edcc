use viz_base::World;
use viz_calc::{Halt, Latch, Plain, Steady};

const WORLD: World = World {
    w: 800,
    s: 16,
    h: 600,
};

#[test]
fn keeps_the_first_halt(rt: HostRuntime) {
    let mut calc = Plain::new(WORLD);
    let mut latch = Latch::new(&mut calc);
    let big = latch.lit(1 << 100);
    let past = latch.add(&big, &big);
    let small = latch.sub(&past, &big);
    latch.stop();
    assert!(rt; latch.finish(small) == Err(Halt::Coeff));
    let mut again = Latch::new(&mut calc);
    let size = again.size();
    assert!(rt; again.finish(size) == Ok(16 * 64));
}
