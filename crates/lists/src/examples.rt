ghost use Rattle.std.specs.Prelude.{◌==◌};
ghost use Rattle.std.proofs.Common.{rules};

#[cfg(test)]
mod tests {
    use crate::asking::Same;
    use crate::distinct::Distinct;
    use std::test::Fail;

    // A number whose note does not tell it from others.
    #[derive(Clone, Copy)]
    struct Noted {
        number: u8,
        note: u8,
    }

    impl Same for Noted {
        ghost same = { λ x y. (x.number == y.number) };

        ghost reflexive = { Prim.search rules };

        ghost symmetric = { Prim.search rules };

        ghost transitive = { Prim.search rules };

        fn is_same(&self, other: &Noted) -> bool {
            self.number == other.number
        }
    }

    #[test]
    fn stored_once(rt: HostRuntime) -> Result<(), Fail> {
        let mut places = [Noted { number: 0, note: 0 }; 2];
        let mut list = Distinct::new(&mut places);
        assert_eq!(rt;
            list.store_once(Noted { number: 5, note: 1 })
                .ok_or("full")?
                .place,
            0
        );
        assert_eq!(rt;
            list.store_once(Noted { number: 6, note: 2 })
                .ok_or("full")?
                .place,
            1
        );
        assert_eq!(rt;
            list.store_once(Noted { number: 5, note: 3 })
                .ok_or("full")?
                .place,
            0
        );
        assert!(rt; list.store_once(Noted { number: 7, note: 4 }).is_none());
        assert_eq!(rt; list.find(&Noted { number: 6, note: 0 }), Some(1));
        assert_eq!(rt; list.elements().len(), 2);
        Ok(())
    }
}
