ghost use Rattle.std.specs.Prelude.{◌≡◌};
ghost use Rattle.records.specs.Few.{few_of, room, joined, members};

use crate::kinds::Few;

impl<T: Copy> Few<T> {
    // None yet, in places that hold a filling.
    pub fn new(filling: T) -> Few<T>
        ensures { result ≡ few_of filling }
    {
        Few {
            count: 0,
            places: [filling; 4],
        }
    }

    // Whether there is room for one more.
    pub fn has_room(&self) -> bool
        ensures { result ≡ room self.now }
    {
        self.count < 4
    }

    // One more at the end, where there is room.
    pub fn with(self, member: T) -> Few<T>
        ensures { result ≡ joined self member }
    {
        if !self.has_room() {
            return self;
        }
        let mut places = self.places;
        places[self.count] = member;
        Few {
            count: self.count + 1,
            places,
        }
    }

    // The members, in their order.
    pub fn as_slice(&self) -> &[T]
        ensures { result.now ≡ members self.now }
    {
        &self.places[..self.count.min(4)]
    }
}
