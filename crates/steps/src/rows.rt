ghost use Rattle.steps.specs.Step.{Step, Then, IsSingleAt};

/// Two steps, of which the second depends on what the first gave.
pub trait TwoSteps {
    ghost World: { Type 0 };

    ghost Refusal: { Type 0 };

    ghost Middle: { Type 0 };

    ghost Value: { Type 0 };

    ghost first: { Step World Refusal Middle };

    ghost next: { Middle → Step World Refusal Value };
}

/// A row has one outcome where its first step has, and its second behind each value of the first.
pub fn a_row_has_one_outcome<T: TwoSteps>()
    ensures { (world : T.World) → IsSingleAt world T.first
        → ((value : T.Middle) → T.first world (Ok value) → IsSingleAt world (T.next value))
        → IsSingleAt world (Then T.first T.next) }
{}
