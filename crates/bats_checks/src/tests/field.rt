use gf_core::Gf;

fn product(a: u8, b: u8) -> u8 {
    Gf::new(a).mul(Gf::new(b)).byte()
}

#[test]
fn both_products_agree_on_all_pairs(rt: HostRuntime) {
    for a in 0..=u8::MAX {
        for b in 0..=u8::MAX {
            let bits = Gf::new(a).mul_bits(Gf::new(b)).byte();
            assert_eq!(rt; product(a, b), bits, "at {a} and {b}");
        }
    }
}

#[test]
fn worked_values(rt: HostRuntime) {
    for (a, b, want) in [
        (0x80, 0x02, 0x1D),
        (3, 3, 5),
        (2, 3, 6),
        (2, 0x8E, 1),
        (0, 7, 0),
        (0xFF, 0xFF, 0xE2),
    ] {
        assert_eq!(rt; product(a, b), want, "at {a} and {b}");
    }
    assert_eq!(rt; Gf::new(0x53).add(Gf::new(0xCA)), Gf::new(0x99));
    assert_eq!(rt; Gf::ZERO.byte(), 0);
    assert_eq!(rt; Gf::ONE.byte(), 1);
    assert_eq!(rt; Gf::ONE.inv(), Gf::ONE);
    assert_eq!(rt; Gf::new(2).inv().byte(), 0x8E);
    assert_eq!(rt; Gf::new(6).div(Gf::new(3)).byte(), 2);
    assert_eq!(rt; Gf::new(3).div(Gf::new(6)).byte(), 0x8E);
}

fn is_send_and_sync<T: Send + Sync + Drop>(_value: T) {}

#[test]
fn elements_cross_threads() {
    is_send_and_sync(Gf::ONE);
}
