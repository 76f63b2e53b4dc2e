// What holds of the definitions, whatever is read or written.
ghost use Rattle.std.specs.Prelude.{◌≡◌, ◌<◌, All, ℕ, List, Ok};
ghost use Rattle.mc_base.specs.declared.cid.Cid.{Cid};
ghost use Rattle.mc_car.specs.declared.car.Car.{Car};
ghost use Rattle.mc_car.specs.declared.car.Section.{Section};
ghost use Rattle.mc_car.specs.Car.{IsCar, IsCarText};
ghost use Rattle.mc_car.specs.CarRead.{car_of};

use mc_base::cids_are_read;

/// A text is a file with these roots and blocks, each block named by its bytes, exactly where these are read from it;
/// and a file with these roots and sections has one text.
pub fn cars_are_read()
    ensures read { (text : List ℕ) (car : Car) → IsCar text car → car_of text ≡ Ok car }
    ensures found { (text : List ℕ) (car : Car) → All (λ byte. byte < 256) text → car_of text ≡ Ok car →
        IsCar text car }
    ensures one { (first second : List ℕ) (roots : List Cid) (sections : List Section) →
        IsCarText first roots sections → IsCarText second roots sections → first ≡ second }
{
    cids_are_read();
}
